//! A tree as a text. An item of a list ends with `;`, a stage begins with `|`, a word with a blank,
//! an assignment with `.` and a redirection with `,`. What is quoted stands between `'`, or behind
//! `=`.

use em_base::Text;
use em_gram::{
    AndOr, Case, Command, Compound, If, Pipeline, Redirect, RedirectKind, Script, Simple, Value,
    Word, WordPiece, WordWhat,
};

/// Appends. Where memory lacks nothing is appended, and the text isn't what is expected.
fn put(to: &mut Text, bytes: &[u8]) {
    let _ = to.add(bytes);
}

#[cycle(shown)]
pub fn script(to: &mut Text, script: &Script) {
    for item in &script.list {
        and_or(to, item);
        put(to, b";");
    }
}

#[cycle(shown)]
fn and_or(to: &mut Text, item: &AndOr) {
    pipeline(to, &item.first);
    for joined in &item.rest {
        put(to, if joined.and { b" && " } else { b" || " });
        pipeline(to, &joined.next);
    }
}

#[cycle(shown)]
fn pipeline(to: &mut Text, pipeline: &Pipeline) {
    if pipeline.not {
        put(to, b"!");
    }
    for stage in &pipeline.stages {
        put(to, b"|");
        command(to, stage);
    }
}

#[cycle(shown)]
fn command(to: &mut Text, command: &Command) {
    match command {
        Command::Simple(of) => simple(to, of),
        Command::Compound(of, behind) => {
            compound(to, of);
            redirects(to, behind);
        }
    }
}

#[cycle(shown)]
fn simple(to: &mut Text, simple: &Simple) {
    put(to, b"[");
    for assigned in &simple.assigned {
        put(to, b".");
        put(to, assigned.name.bytes());
        put(to, b"=");
        word(to, &assigned.value);
    }
    words(to, &simple.words);
    redirects(to, &simple.redirects);
    put(to, b"]");
}

#[cycle(shown)]
fn words(to: &mut Text, words: &[Word]) {
    for next in words {
        put(to, b" ");
        word(to, next);
    }
}

fn mark(kind: RedirectKind) -> &'static [u8] {
    match kind {
        RedirectKind::Write => b">",
        RedirectKind::Append => b">>",
        RedirectKind::Read => b"<",
        RedirectKind::Duplicate => b">&",
    }
}

#[cycle(shown)]
fn redirects(to: &mut Text, redirects: &[Redirect]) {
    for redirect in redirects {
        put(to, &[b',', b'0' | redirect.fd]);
        put(to, mark(redirect.kind));
        word(to, &redirect.target);
    }
}

/// Between brackets.
#[cycle(shown)]
fn block(to: &mut Text, of: &Script) {
    put(to, b"(");
    script(to, of);
    put(to, b")");
}

#[cycle(shown)]
fn compound(to: &mut Text, compound: &Compound) {
    match compound {
        Compound::Subshell(of) => block(to, of),
        Compound::Group(of) => {
            put(to, b"{");
            script(to, of);
            put(to, b"}");
        }
        Compound::If(of) => conditional(to, of),
        Compound::Loop(of) => {
            put(to, if of.until { b"until" } else { b"while" });
            block(to, &of.test);
            block(to, &of.body);
        }
        Compound::For(of) => {
            put(to, b"for ");
            put(to, of.name.bytes());
            words(to, &of.words);
            block(to, &of.body);
        }
        Compound::Case(of) => case(to, of),
    }
}

#[cycle(shown)]
fn conditional(to: &mut Text, of: &If) {
    put(to, b"if");
    for branch in &of.branches {
        block(to, &branch.test);
        block(to, &branch.body);
    }
    if let Some(other) = &of.other {
        put(to, b"else");
        block(to, other);
    }
    put(to, b"fi");
}

#[cycle(shown)]
fn case(to: &mut Text, of: &Case) {
    put(to, b"case ");
    word(to, &of.word);
    for item in &of.items {
        put(to, b"<");
        words(to, &item.patterns);
        put(to, b">");
        if let Some(body) = &item.body {
            block(to, body);
        }
    }
}

#[cycle(shown)]
fn word(to: &mut Text, word: &Word) {
    for next in &word.pieces {
        piece(to, next);
    }
}

#[cycle(shown)]
fn piece(to: &mut Text, piece: &WordPiece) {
    match &piece.what {
        WordWhat::Bytes(text) => {
            let side: &[u8] = if piece.quoted { b"'" } else { b"" };
            put(to, side);
            put(to, text.bytes());
            put(to, side);
        }
        WordWhat::Value(of) => {
            value(to, piece.quoted, of);
            put(to, b"}");
        }
        WordWhat::Argument(of) => {
            value(to, piece.quoted, of);
            put(to, b" ");
        }
        WordWhat::End => put(to, b"}"),
        WordWhat::Output(of) => {
            put(to, if piece.quoted { b"=$" } else { b"-$" });
            block(to, of)
        }
    }
}

/// What stands before the argument of a value, or its end.
fn value(to: &mut Text, quoted: bool, value: &Value) {
    put(to, if quoted { b"=$" } else { b"-$" });
    put(to, b"{");
    put(to, value.name.bytes());
    put(to, b" ");
    put(to, value.form.bytes());
}

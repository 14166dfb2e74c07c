use super::names::name_of;
use em_base::{NoMemory, Span, Text};
use em_lex::{LexNo, Start, Token, TokenKind, What, lexemes, tokens};
use std::alloc::{AllocError, Global};
use std::test::Fail;

/// `n`, `a`, `p` or `r`: what a word begins with.
fn start_mark(start: Start) -> &'static [u8] {
    match start {
        Start::Plain => b"p[",
        Start::Name => b"n[",
        Start::Assignment => b"a[",
        _ => b"r[",
    }
}

/// An operator, or where something begins or ends.
fn mark(what: &What) -> &'static [u8] {
    match what {
        What::Newline => b"/",
        What::Semicolon => b";",
        What::CaseEnd => b";;",
        What::Ampersand => b"&",
        What::AndIf => b"&&",
        What::OrIf => b"||",
        What::Pipe => b"|",
        What::LeftParen => b"(",
        What::RightParen => b")",
        What::Less => b"<",
        What::Great => b">",
        What::DoubleGreat => b">>",
        What::GreatAnd => b">&",
        What::WordStart(start) => start_mark(*start),
        What::WordEnd => b"]",
        What::ArgumentEnd => b"}",
        What::BadValue => b"!",
        What::SubstitutionStart { quoted: true } => b"=(:",
        What::SubstitutionStart { quoted: false } => b"(:",
        What::SubstitutionEnd => b":)",
        _ => b"",
    }
}

fn add_all(to: &mut Text, parts: &[&[u8]]) -> Result<(), NoMemory> {
    for part in parts {
        to.add(part)?;
    }
    Ok(())
}

/// Appends what a lexeme is: bytes between `-` or `=`, where they are quoted.
fn show(shown: &mut Text, what: &What) -> Result<(), NoMemory> {
    match what {
        What::Number(n) => shown.add(&[b'#', b'0' | *n]),
        What::Bytes { quoted, text } => {
            let side: &[u8] = if *quoted { b"=" } else { b"-" };
            add_all(shown, &[side, text.bytes(), side])
        }
        What::Value { quoted, name, form } => {
            let start: &[u8] = if *quoted { b"=$" } else { b"$" };
            add_all(shown, &[start, name.bytes(), b".", form.bytes()])
        }
        What::ArgumentStart { quoted, name, form } => {
            let start: &[u8] = if *quoted { b"=${" } else { b"${" };
            add_all(shown, &[start, name.bytes(), b".", form.bytes(), b" "])
        }
        _ => shown.add(mark(what)),
    }
}

fn shown(alloc: Global, line: &[u8]) -> Result<Text, NoMemory> {
    let mut text = Text::new(alloc);
    for lexeme in lexemes(alloc, line)?.items.items() {
        show(&mut text, &lexeme.what)?;
    }
    Ok(text)
}

/// Each line with its lexemes.
static LEXEMES: [(&[u8], &[u8]); 30] = [
    (b"a>b", b"n[-a-]>n[-b-]"),
    (
        b"a;b;;c&d&&e|f||g",
        b"n[-a-];n[-b-];;n[-c-]&n[-d-]&&n[-e-]|n[-f-]||n[-g-]",
    ),
    (b"(a)>>b <c\n", b"(n[-a-])>>n[-b-]<n[-c-]/"),
    // descriptors stand right before the operator
    (b"2>&1 >&2", b"#2>&#1>&#2"),
    (b"1 >f 1>f", b"p[-1-]>n[-f-]#1>n[-f-]"),
    (b"a>&1>f >& g", b"n[-a-]>&#1>n[-f-]>&n[-g-]"),
    // names, assignments, reserved words
    (b"x=1 y=$z x+=1 =", b"a[-x=--1-]a[-y=-$z.]p[-x+=1-]p[-=-]"),
    (
        b"if i\\\nf 'if' \\if ifs {",
        b"r[-if-]r[-if-]p[=if=]p[=i=-f-]n[-ifs-]r[-{-]",
    ),
    (b"a&\\\n&b\\\n", b"n[-a-]&&n[-b-]"),
    // quotes
    (b"a 'b \\c'\"d $x\"", b"n[-a-]p[=b \\c==d ==$x.]"),
    (b"''\"\"", b"p[====]"),
    (
        b"\"a\\\"b\\c\\\n\" a\\ b\\",
        b"p[=a\"b\\c=]p[-a-= =-b-=\\=]",
    ),
    // comments
    (b"# 'a\nb#c \\#d '#' #", b"/p[-b#c-]p[=#=-d-]p[=#=]"),
    (b"#a\\\nb", b"/n[-b-]"),
    // values
    (
        b"$ a$ $x-${x}${#x}$?${?}",
        b"p[-$-]p[-a--$-]p[$x.---$x.$x.#$.?$.?]",
    ),
    (
        b"${x:-a b}${y%%'*'}${z#\\}}",
        b"p[${x.:- -a b-}${y.%% =*=}${z.# =}=}]",
    ),
    (
        b"\"${x-'a'}${x%'a'}${x+\\}b}\"",
        b"p[=${x.- ='a'=}=${x.% =a=}=${x.+ =}b=}]",
    ),
    (b"${} ${a b}", b"p[!}]p[!- b-}]"),
    // substitutions
    (b"\"$(a \"b\")\"", b"p[=(:n[-a-]p[=b=]:)]"),
    (b"`a \\`b\\` '\\\\'`", b"p[(:n[-a-]p[(:n[-b-]:)]p[=\\=]:)]"),
    (b"\"`a \\\"b\\\"`\"", b"p[=(:n[-a-]p[=b=]:)]"),
    (
        b"$(case x in a) b;; (c|d) (e);; esac)f",
        b"p[(:r[-case-]n[-x-]r[-in-]n[-a-])n[-b-];;(n[-c-]|n[-d-])(n[-e-]);;r[-esac-]:)-f-]",
    ),
    (
        b"$(echo case x in y) z)",
        b"p[(:n[-echo-]r[-case-]n[-x-]r[-in-]n[-y-]:)]n[-z-])",
    ),
    // up to a fault; a word that begins with it has begun
    (b"a 'b", b"n[-a-]p["),
    (b"a b$(c", b"n[-a-]p[-b-"),
    (b"$(a $1)", b"p[(:n[-a-]p["),
    // a redirection that is refused has begun
    (b"a <<E", b"n[-a-]<"),
    (b"a 2>&-", b"n[-a-]#2>&"),
    (b"a 3>f", b"n[-a-]#9"),
    (b"`a 0>&1`", b"p[(:n[-a-]#0"),
];

/// Whether a line's lexemes are this text.
fn is_shown(alloc: Global, line: &[u8], wanted: &[u8]) -> Result<bool, NoMemory> {
    Ok(shown(alloc, line)?.bytes() == wanted)
}

#[test]
fn lines_have_lexemes(rt: HostRuntime) -> Result<(), Fail> {
    let alloc = rt.alloc();
    for (line, wanted) in &LEXEMES {
        assert!(rt; is_shown(alloc, line, wanted)?);
    }
    Ok(())
}

/// Each line with its tokens: where each begins and ends, and a mark of its kind.
static TOKENS: [(&[u8], &str); 5] = [
    (b"", ""),
    (b"a>b", "0-1w 1-2o 2-3w "),
    (b"2>&1\n", "0-1# 1-3o 3-4# 4-5/ "),
    (b"a \"b $(c;d)\" e", "0-1w 2-12w 13-14w "),
    (b"$(case x in a) b;; esac)", "0-24w "),
];

/// `w` a word, `o` an operator, `/` a newline, `#` a number.
fn kind_mark(kind: TokenKind) -> &'static str {
    match kind {
        TokenKind::Word => "w",
        TokenKind::Operator => "o",
        TokenKind::Newline => "/",
        TokenKind::Number => "#",
    }
}

fn show_token(log: &mut String, token: &Token) -> Result<(), AllocError> {
    let Span { start, end } = token.span;
    let mark = kind_mark(token.kind);
    write!(log, "{start}-{end}{mark} ")
}

fn show_tokens(log: &mut String, tokens: &[Token]) -> Result<(), AllocError> {
    for token in tokens {
        show_token(log, token)?;
    }
    Ok(())
}

/// Whether a line's tokens are these.
fn is_cut(alloc: Global, line: &[u8], wanted: &str) -> Result<bool, Fail> {
    let mut log = String::new(alloc);
    show_tokens(&mut log, tokens(alloc, line)?.as_slice())?;
    Ok(log.as_str() == wanted)
}

#[test]
fn lines_have_tokens(rt: HostRuntime) -> Result<(), Fail> {
    let alloc = rt.alloc();
    for (line, wanted) in &TOKENS {
        assert!(rt; is_cut(alloc, line, wanted)?);
    }
    Ok(())
}

/// What a fault is, and its place.
fn told(no: &LexNo) -> (&'static str, usize) {
    match no {
        LexNo::Unclosed(at) => ("unclosed", *at),
        LexNo::Refused(construct, at) => (name_of(construct), *at),
        LexNo::NoMemory => ("", 0),
    }
}

/// Whether a line has this fault at this place.
fn is_fault(alloc: Global, line: &[u8], fault: &str, at: usize) -> bool {
    match tokens(alloc, line) {
        Ok(_) => false,
        Err(no) => {
            let (name, place) = told(&no);
            name == fault && place == at
        }
    }
}

/// Each line with the place of what isn't closed.
static UNCLOSED: [(&[u8], usize); 15] = [
    (b"echo 'a", 5),
    (b"'a", 0),
    (b"a \"b", 2),
    (b"\"a\" \"", 4),
    (b"$(a & b", 0),
    (b"a $(b # c)", 2),
    (b"$(case x in a)", 0),
    (b"a `b", 2),
    (b"a `b 'c`", 5),
    (b"a ${x", 2),
    (b"${x-'a}", 0),
    (b"$(a \"b)", 0),
    (b"a \"b $1", 2),
    (b"a \"$(b `c`", 2),
    // a backslash and a newline between `$` and its bracket vanish
    (b"a $\\\n(b", 2),
];

#[test]
fn what_opens_must_be_closed(rt: HostRuntime) {
    for (line, at) in &UNCLOSED {
        assert!(rt; is_fault(rt.alloc(), line, "unclosed", *at));
    }
}

/// Each line with the construct that is refused, and its place.
static REFUSED: [(&[u8], &str, usize); 20] = [
    (b"cat <<E", "<<", 4),
    (b"<> b", "redirection", 0),
    (b"a >| b", "redirection", 2),
    (b"a <&0", "redirection", 2),
    (b"a 2>&-", "redirection", 3),
    (b"3> f", "descriptor", 0),
    (b"a >&3", "descriptor", 4),
    (b"a 0>&1", "descriptor", 2),
    (b"a 12>f", "descriptor", 2),
    (b"$((1))", "$((", 0),
    (b"a $1", "positional", 2),
    (b"$@", "positional", 0),
    (b"a$*b", "positional", 1),
    (b"\"$#\"", "positional", 1),
    (b"${10}", "positional", 0),
    (b"a ${#}", "positional", 2),
    (b"$(a $$)", "positional", 4),
    (b"`a $!`", "positional", 3),
    (b"${x-$0}", "positional", 4),
    (b"$- $1", "positional", 0),
];

#[test]
fn constructs_are_refused(rt: HostRuntime) {
    for (line, construct, at) in &REFUSED {
        assert!(rt; is_fault(rt.alloc(), line, construct, *at));
    }
}

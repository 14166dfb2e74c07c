//! The syntax tree.

use em_base::Text;

/// A list of commands. That of a whole line, and that of a command substitution, may be empty.
#[cycle(tree)]
#[derive(Drop)]
pub struct Script {
    pub list: Vec<AndOr>,
}

/// Pipelines joined by `&&` and `||`, which bind alike and from the left.
#[cycle(tree)]
#[derive(Drop)]
pub struct AndOr {
    pub first: Pipeline,
    pub rest: Vec<Joined>,
}

/// A pipeline behind `&&` (`and`) or `||`.
#[cycle(tree)]
#[derive(Drop)]
pub struct Joined {
    pub and: bool,
    pub next: Pipeline,
}

/// Commands joined by `|`, at least one. With `not` the pipeline stands behind `!`.
#[cycle(tree)]
#[derive(Drop)]
pub struct Pipeline {
    pub not: bool,
    pub stages: Vec<Command>,
}

/// A simple command, or a compound one with its redirections.
#[cycle(tree)]
#[derive(Drop)]
pub enum Command {
    Simple(Simple),
    Compound(Compound, Vec<Redirect>),
}

/// Assignments, words and redirections, each in their order; at least one of them. An assignment
/// stands before all words.
///
/// `texts` may hold a long command's words once more, so that a loop copies none of them for each
/// of its turns. It means nothing: who runs the command compares it with the words first.
#[cycle(tree)]
#[derive(Drop)]
pub struct Simple {
    pub assigned: Vec<Assigned>,
    pub words: Vec<Word>,
    pub texts: Vec<Text>,
    pub redirects: Vec<Redirect>,
}

/// `name=value` in front of a command. The value may have no pieces.
#[cycle(tree)]
#[derive(Drop)]
pub struct Assigned {
    pub name: Text,
    pub value: Word,
}

/// A redirection of the descriptor `fd`. The target of `Duplicate` is the digit behind `>&`, as a
/// word.
#[cycle(tree)]
#[derive(Drop)]
pub struct Redirect {
    pub fd: u8,
    pub kind: RedirectKind,
    pub target: Word,
}

/// `>`, `>>`, `<` and `>&`.
#[derive(Clone, Copy, Debug, PartialEq, Eq)]
pub enum RedirectKind {
    Write,
    Append,
    Read,
    Duplicate,
}

/// A compound command.
#[cycle(tree)]
#[derive(Drop)]
pub enum Compound {
    /// `( )`
    Subshell(Script),
    /// `{ }`
    Group(Script),
    If(If),
    Loop(Loop),
    For(For),
    Case(Case),
}

/// `if` with its branches, the first and those behind `elif`, and what stands behind `else`.
#[cycle(tree)]
#[derive(Drop)]
pub struct If {
    pub branches: Vec<Branch>,
    pub other: Option<Script>,
}

/// A test and what stands behind its `then`.
#[cycle(tree)]
#[derive(Drop)]
pub struct Branch {
    pub test: Script,
    pub body: Script,
}

/// `while`, or with `until` that.
#[cycle(tree)]
#[derive(Drop)]
pub struct Loop {
    pub until: bool,
    pub test: Script,
    pub body: Script,
}

/// `for name in words`
#[cycle(tree)]
#[derive(Drop)]
pub struct For {
    pub name: Text,
    pub words: Vec<Word>,
    pub body: Script,
}

/// `case word in items esac`
#[cycle(tree)]
#[derive(Drop)]
pub struct Case {
    pub word: Word,
    pub items: Vec<Item>,
}

/// The patterns of an item, at least one, and its commands.
#[cycle(tree)]
#[derive(Drop)]
pub struct Item {
    pub patterns: Vec<Word>,
    pub body: Option<Script>,
}

/// A word: its pieces from left to right, in one list. The argument of a value stands between an
/// `Argument` and the `End` that belongs to it, so however deep values stand in one another, no
/// word holds a word.
#[cycle(tree)]
#[derive(Drop)]
pub struct Word {
    pub pieces: Vec<WordPiece>,
}

/// A piece of a word. What is `quoted` is neither split nor expanded to path names; an `End` never
/// is.
#[cycle(tree)]
#[derive(Drop)]
pub struct WordPiece {
    pub quoted: bool,
    pub what: WordWhat,
}

/// What a piece of a word is.
#[cycle(tree)]
#[derive(Drop)]
pub enum WordWhat {
    /// Bytes that stand for themselves.
    Bytes(Text),
    /// A value without an argument: `$name`, `${name}`, `${#name}` or `$?`.
    Value(Value),
    /// The begin of the argument of this value, which goes on up to the `End` that belongs to it.
    Argument(Value),
    /// The end of the innermost argument.
    End,
    /// The output of commands.
    Output(Script),
}

/// `$name` and its kin. The form is what stands between the name and the argument, as `:-` or `%%`;
/// `#` without an argument is a length, and `?` with an empty name is `$?`.
#[derive(Drop)]
pub struct Value {
    pub name: Text,
    pub form: Text,
}

//! What stands in front of a recipe's line.
ghost use Rattle.std.specs.Prelude.{◌≡◌, ◌≤◌, length};
ghost use Rattle.std.specs.List.{prefix_len};
ghost use Rattle.em_recipe.specs.Marks as front;
ghost use Rattle.em_recipe.specs.Marks.{either};

use em_base::is_blank;

/// The marks in front of a recipe's line.
#[derive(Clone, Copy, Debug, PartialEq, Eq)]
pub struct Marks {
    /// `@`: the line isn't echoed.
    pub silent: bool,
    /// `-`: its failure is ignored.
    pub lenient: bool,
    /// `+`: it runs also where lines are only shown.
    pub forced: bool,
}

impl Marks {
    /// The marks of both.
    pub fn or(self, other: Marks) -> Marks
        ensures { result ≡ either self other }
    {
        Marks {
            silent: self.silent || other.silent,
            lenient: self.lenient || other.lenient,
            forced: self.forced || other.forced,
        }
    }
}

fn is_mark(byte: u8) -> bool
    ensures { result ≡ front.is_mark byte }
{
    is_blank(byte) || byte == b'@' || byte == b'-' || byte == b'+'
}

/// How many bytes stand in front of the line's command: blanks and marks.
fn front(line: &[u8]) -> usize
    ensures count { result ≡ prefix_len front.is_mark line.now }
    ensures within { result ≤ length line.now }
{
    line.iter().take_while(|b| is_mark(**b)).count()
}

/// The marks in front of the line. A step for each byte in front of its command.
pub fn marks_of(line: &[u8]) -> Marks
    ensures { result ≡ front.marks line.now }
{
    let front = &line[..front(line)];
    Marks {
        silent: front.contains(&b'@'),
        lenient: front.contains(&b'-'),
        forced: front.contains(&b'+'),
    }
}

/// The line without what stands in front of its command. A step for each byte there.
pub fn bare(line: &[u8]) -> &[u8]
    ensures { result.now ≡ front.bare line.now }
{
    &line[front(line)..]
}

//! The parts of a file's name.
ghost use Rattle.std.specs.Prelude.{◌≡◌, ◌==◌, ◌≤◌, not, length};
ghost use Rattle.std.specs.List.{suffix_len};
ghost use Rattle.em_namefn.specs.Names as names;

/// A part of a file's name.
#[derive(Clone, Copy)]
pub(crate) enum NamePart {
    /// What stands up to the last `/`, or `./`.
    Dir,
    /// What stands behind the last `/`, or the whole name.
    File,
    /// From the last `.` of the file on, or nothing.
    Suffix,
    /// What stands in front of the suffix.
    Base,
}

impl NamePart {
    ghost use Rattle.em_namefn.specs.Names.{part_of};

    /// This part of a word.
    pub(crate) fn of(self, word: &[u8]) -> &[u8]
        ensures { result.now ≡ part_of self word.now }
    {
        match self {
            NamePart::Dir => dir_of(word),
            NamePart::File => file_of(word),
            NamePart::Suffix => suffix_of(word),
            NamePart::Base => base_of(word),
        }
    }
}

/// How many bytes stand behind the last one that is this byte, or in all.
fn behind(byte: u8, text: &[u8]) -> usize
    ensures count { result ≡ suffix_len (λ b. not (b == byte)) text.now }
    ensures within { result ≤ length text.now }
{
    text.iter().rev().take_while(|b| **b != byte).count()
}

fn file_of(word: &[u8]) -> &[u8]
    ensures { result.now ≡ names.file_of word.now }
{
    &word[word.len() - behind(b'/', word)..]
}

fn dir_of(word: &[u8]) -> &[u8]
    ensures { result.now ≡ names.dir_of word.now }
{
    let file = file_of(word);
    if file.len() == word.len() {
        b"./"
    } else {
        &word[..word.len() - file.len()]
    }
}

fn suffix_of(word: &[u8]) -> &[u8]
    ensures { result.now ≡ names.suffix_of word.now }
{
    let file = file_of(word);
    let behind = behind(b'.', file);
    if behind == file.len() {
        b""
    } else {
        &file[file.len() - behind - 1..]
    }
}

fn base_of(word: &[u8]) -> &[u8]
    ensures { result.now ≡ names.base_of word.now }
{
    &word[..word.len().saturating_sub(suffix_of(word).len())]
}

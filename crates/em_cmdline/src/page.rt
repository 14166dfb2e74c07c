//! The pages that a word alone asks for.
ghost use Rattle.std.specs.Prelude.{◌≡◌};
ghost use Rattle.em_cmdline.specs.Pages as spec;

use em_base::Text;

/// A page that is printed in place of a build.
#[derive(Clone, Copy, Debug, PartialEq, Eq)]
pub enum Page {
    /// How `emake` is called: `--help`.
    Usage,
    /// Which `emake` this is, and with which kit it was proved: `--version`.
    Version,
}

const USAGE: &[u8] = b"usage: emake -I IMAGE [OPTION..] [NAME=VALUE..] [GOAL..]
       emake --gen N [OPTION..]
       emake --explain REPORT [--agents N]
       emake --help
       emake --version

  -I IMAGE          build in the tree that this file holds, and replace it by the new tree
  -f NAME           the makefile's name in the tree
  -C DIR            the directory in the tree in which to build
  -k                go on with what doesn't need a target that failed
  -n                print recipes and don't run them
  -q                run nothing; the status tells whether something is to be made
  -s                don't print recipes
  -i                go on behind lines that fail
  -B                make all targets anew
  -j N              build with 1 to 64 workers; without it 1
  --fuel N          give each job 1 to 1000000 units; without it 1000000
  --history FILE    keep in this file what jobs are found to wait for
  --mode MODE       create, merge (without it) or read the history
  --report FILE     write what each job did to this file
  --gen N           build a project of 1 to 10000 sources that is made up
  --explain REPORT  print a report's critical path, and a schedule
  --agents N        for 1 to 64 agents; without it 1

status: 0 all is made; 1 something is to be made (-q); 2 a fault; 3 a file or the output
failed; 4 a construct was refused; 5 a job's units were spent; 7 out of memory
";

const VERSION: &[u8] = b"emake 1.0, proved with rattle-kit-13f\n";

impl Page {
    /// The page's text.
    pub fn text(self) -> &'static [u8]
        ensures { result.now ≡ spec.text_of self }
    {
        match self {
            Page::Usage => USAGE,
            Page::Version => VERSION,
        }
    }
}

/// The page of this name.
fn page_named(word: &[u8]) -> Option<Page>
    ensures { result ≡ spec.page_named word.now }
{
    match word {
        b"--help" => Some(Page::Usage),
        b"--version" => Some(Page::Version),
        _ => None,
    }
}

/// The page that the words ask for: `--help` or `--version`, where it is the only one. Beside other
/// words these are unknown. Takes no memory.
pub fn page_in(words: &[Text]) -> Option<Page>
    ensures { result ≡ spec.page_in words.now }
{
    match words {
        [word] => page_named(word.bytes()),
        _ => None,
    }
}

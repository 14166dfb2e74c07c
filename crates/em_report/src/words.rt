//! The words of causes.
ghost use Rattle.std.specs.Prelude.{◌≡◌};
ghost use Rattle.em_report.specs.Reports.{word_of};
ghost use Rattle.em_report.specs.Parts as parts;

use crate::report::CauseWord;

/// The word of a cause.
pub fn word(cause: CauseWord) -> &'static [u8]
    ensures { result.now ≡ word_of cause }
{
    match cause {
        CauseWord::Clean => b"-",
        CauseWord::Differ => b"differ",
        CauseWord::Strange => b"strange",
        CauseWord::Foreign => b"foreign",
        CauseWord::Memory => b"memory",
    }
}

/// The cause whose word begins with this byte.
pub fn begun_by(byte: u8) -> Option<CauseWord>
    ensures { result ≡ parts.begun_by byte }
{
    match byte {
        b'-' => Some(CauseWord::Clean),
        b'd' => Some(CauseWord::Differ),
        b's' => Some(CauseWord::Strange),
        b'f' => Some(CauseWord::Foreign),
        b'm' => Some(CauseWord::Memory),
        _ => None,
    }
}

use super::*;
use em_base::Text;
use std::test::Fail;

/// Texts in and out: what POSIX's pages say, and what the GNU utilities wrote by hand.
#[test]
fn texts_are_made(rt: HostRuntime) -> Result<(), Fail> {
    let alloc = rt.alloc();
    assert!(rt; head(b"a\nb\nc", 2) == b"a\nb\n".as_slice());
    assert!(rt; tail(b"a\nb\nc", 2) == b"b\nc".as_slice());
    assert!(rt; base_name(b"/a/b//") == b"b".as_slice());
    assert!(rt; without_suffix(b"b.c", b".c") == b"b".as_slice());
    assert!(rt; dir_name(b"//a//b/") == b"//a".as_slice());
    assert!(rt; compare(b"a\nbc", b"a\nbd") == Comparison::Differ(4, 2));
    assert_eq!(rt; number(b"-007"), Some(-7));
    assert!(rt; is_related(Relation::AtMost, -7, 7));
    let asked = Asked {
        lines: true,
        words: true,
        bytes: false,
    };
    assert!(rt; count_line(alloc, &asked, b"a b\nc", None)?.bytes() == b"1 3\n".as_slice());
    assert!(rt; uniq_text(alloc, true, b"a\na\n")?.bytes() == b"      2 a\n".as_slice());
    let order = Order {
        backwards: true,
        unique: false,
    };
    let files = [b"b\na".as_slice(), b"c\n"];
    assert!(rt; sort_text(alloc, &order, &files)?.bytes() == b"c\nb\na\n".as_slice());
    Ok(())
}

#[test]
fn lines_are_selected(rt: HostRuntime) -> Result<(), Fail> {
    let alloc = rt.alloc();
    let search = Search {
        whole: false,
        inverted: true,
    };
    let lines = selected(alloc, &search, b"a", b"ba\nc\n")?;
    assert!(rt; prefixed(alloc, b"f:", &lines)?.bytes() == b"f:c\n".as_slice());
    Ok(())
}

#[test]
fn a_format_is_printed(rt: HostRuntime) -> Result<(), Fail> {
    let alloc = rt.alloc();
    let mut words = Vec::new(alloc);
    for word in [b"1".as_slice(), b"x"] {
        words.push(Text::from_slice(alloc, word)?)?;
    }
    let parts = format_of(alloc, b"%d;")?;
    assert!(rt; printed(alloc, parts.items(), &words)?.bytes() == b"1;;".as_slice());
    assert_eq!(rt; faults(alloc, parts.items(), &words)?.len(), 1);
    assert!(rt; stripped(true, &words).0);
    assert!(rt; form_of(&words) == Form::Syntax);
    Ok(())
}

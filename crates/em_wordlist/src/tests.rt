use super::*;
use em_base::{Span, Text};
use std::test::Fail;

#[test]
fn words_stand_between_blanks(rt: HostRuntime) -> Result<(), Fail> {
    let spans = words(rt.alloc(), b" a  bc ")?;
    let want = [Span { start: 1, end: 2 }, Span { start: 4, end: 6 }];
    assert_eq!(rt; spans.as_slice(), want.as_slice());
    let pieces = texts(rt.alloc(), b"\ta\nb \t\tc")?;
    assert_eq!(rt; join(rt.alloc(), &pieces)?.bytes(), b"a\nb c".as_slice());
    Ok(())
}

#[test]
fn empty_texts_are_joined_too(rt: HostRuntime) -> Result<(), Fail> {
    let mut texts = Vec::new(rt.alloc());
    for text in [b"".as_slice(), b"a", b"", b"b c", b""] {
        texts.push(Text::from_slice(rt.alloc(), text)?)?;
    }
    assert_eq!(rt;
        join_texts(rt.alloc(), &texts)?.bytes(),
        b" a  b c ".as_slice()
    );
    Ok(())
}

#[test]
fn a_stem_stands_for_the_first_percent(rt: HostRuntime) {
    for (pattern, word, want) in [
        (b"%.c".as_slice(), b"d/x.c".as_slice(), Some((0, 3))),
        (b"ab%ba", b"aba", None),
        (b"ab%ba", b"abba", Some((2, 2))),
        (b"%%", b"a%", Some((0, 1))),
        (b"%%", b"a", None),
        (b"a", b"a", Some((0, 0))),
        (b"a", b"ab", None),
        (b"\\%", b"\\x", Some((1, 2))),
    ] {
        let want = want.map(|(start, end)| Span { start, end });
        assert_eq!(rt; stem(pattern, word), want);
    }
}

#[test]
fn the_stem_is_put_into_the_other_text(rt: HostRuntime) -> Result<(), Fail> {
    for (pattern, to, word, want) in [
        (
            b"%.c".as_slice(),
            b"%.o".as_slice(),
            b"d/x.c".as_slice(),
            b"d/x.o".as_slice(),
        ),
        (b"%.c", b"%.o", b"x.h", b"x.h"),
        (b"ab%ba", b"<%>", b"aba", b"aba"),
        (b"%%", b"%%", b"a%", b"a%"),
        (b"%", b"x", b"a", b"x"),
        (b"a", b"%b", b"a", b"%b"),
        (b"%", b"%-%", b"a", b"a-%"),
    ] {
        assert_eq!(rt; replace(rt.alloc(), pattern, to, word)?.bytes(), want);
    }
    assert_eq!(rt;
        fill(rt.alloc(), b"%.o", b"d/x")?.bytes(),
        b"d/x.o".as_slice()
    );
    assert_eq!(rt; fill(rt.alloc(), b"x.o", b"y")?.bytes(), b"x.o".as_slice());
    Ok(())
}

use super::*;
use em_base::Span;
use std::test::Fail;

fn literal(start: usize, end: usize) -> Part {
    Part::Literal(Span { start, end })
}

fn reference(start: usize, end: usize) -> Part {
    Part::Ref(Span { start, end })
}

/// Each text with its parts, and with the place of the reference that isn't closed.
#[test]
fn texts_have_parts(rt: HostRuntime) -> Result<(), Fail> {
    let none: &[Part] = &[];
    for (text, wanted, unclosed) in [
        (b"".as_slice(), none, None),
        (b"abc", &[literal(0, 3)], None),
        (b"$x", &[reference(1, 2)], None),
        (b"$$", &[Part::Dollar], None),
        (b"a$$b", &[literal(0, 1), Part::Dollar, literal(3, 4)], None),
        (b"$$$(A)", &[Part::Dollar, reference(4, 5)], None),
        (b"$()", &[reference(2, 2)], None),
        (b"$(a)$(b)", &[reference(2, 3), reference(6, 7)], None),
        (b"${a}", &[reference(2, 3)], None),
        // brackets of one kind nest
        (b"$(a(b)c)d", &[reference(2, 7), literal(8, 9)], None),
        (b"${a{b}c}", &[reference(2, 7)], None),
        (b"$(a $(b) c)", &[reference(2, 10)], None),
        (b"$(a ${b)} c)", &[reference(2, 7), literal(8, 12)], None),
        // what isn't closed
        (b"a$(b", &[literal(0, 1)], Some(1)),
        (b"x$", &[literal(0, 1)], Some(1)),
        (b"$(a}", none, Some(0)),
        (b"$$$", &[Part::Dollar], Some(2)),
        (b"$(a)$(b$(c)", &[reference(2, 3)], Some(4)),
        (b"$(a)#$(b", &[reference(2, 3), literal(4, 5)], Some(5)),
    ] {
        let parted = parts_before(rt.alloc(), text)?;
        assert!(rt; parted.parts.items() == wanted);
        assert!(rt; parted.unclosed == unclosed);
        match unclosed {
            None => assert!(rt; parts(rt.alloc(), text)?.as_slice() == wanted),
            Some(at) => {
                assert!(rt; parts(rt.alloc(), text).is_err_and(|e| e == RefNo::Unclosed(at)));
            }
        }
    }
    Ok(())
}

#[test]
fn a_reference_has_a_kind_of_brackets(rt: HostRuntime) {
    for (text, start, kind) in [
        (b"$(a)".as_slice(), 2, Some(Bracket::Round)),
        (b"${a}", 2, Some(Bracket::Curly)),
        (b"$a", 1, None),
        (b"(a", 0, None),
        (b"$(a)", 9, None),
    ] {
        assert!(rt; Bracket::before(text, Span { start, end: start }) == kind);
    }
    assert!(rt; Bracket::Curly.opening() == b'{' && Bracket::Curly.closing() == b'}');
}

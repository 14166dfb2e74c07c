use super::*;
use em_base::Text;
use std::test::Fail;

/// Each file with its lines: their numbers, whether they are of a recipe, and their texts.
#[test]
fn a_file_has_logical_lines(rt: HostRuntime) -> Result<(), Fail> {
    let none: &[(u32, bool, &[u8])] = &[];
    let file = Text::from_slice(rt.alloc(), b"Makefile")?;
    for (bytes, wanted) in [
        (b"".as_slice(), none),
        (b"\n", &[(1, false, b"")]),
        (
            b"a\n\nb\n",
            &[(1, false, b"a"), (2, false, b""), (3, false, b"b")],
        ),
        (b"a\nb", &[(1, false, b"a"), (2, false, b"b")]),
        // one, two and three backslashes
        (b"a\\\nb\nc", &[(1, false, b"a b"), (3, false, b"c")]),
        (b"a\\\\\nb\nc", &[(1, false, b"a\\ b"), (3, false, b"c")]),
        (
            b"a\\\\\\\nb\nc",
            &[(1, false, b"a\\\\ b"), (3, false, b"c")],
        ),
        (
            b"a \t\\\n \t b \nd",
            &[(1, false, b"a b "), (3, false, b"d")],
        ),
        (b"a \\\n \\\n b\nc", &[(1, false, b"a b"), (4, false, b"c")]),
        (b"a # b \\\n c\nd", &[(1, false, b"a "), (3, false, b"d")]),
        (b"a\\\n\tb", &[(1, false, b"a b")]),
        // at the end of the file
        (b"X = a\\\n", &[(1, false, b"X = a ")]),
        (b"X = a\\", &[(1, false, b"X = a\\")]),
        (b"X = a\\\\\n", &[(1, false, b"X = a\\ ")]),
        (b"X = a\\\\", &[(1, false, b"X = a\\\\")]),
        // recipes
        (b"\t a # b\n", &[(1, true, b" a # b")]),
        (
            b"a\n\t\n\t\tb",
            &[(1, false, b"a"), (2, true, b""), (3, true, b"\tb")],
        ),
        (b"\ta\\\n\tb\nc", &[(1, true, b"a\\\nb"), (3, false, b"c")]),
        (
            b"\ta\\\\\n\t\tb\nc",
            &[(1, true, b"a\\\\\n\tb"), (3, false, b"c")],
        ),
        (
            b"\ta\\\\\\\nb\nc",
            &[(1, true, b"a\\\\\\\nb"), (3, false, b"c")],
        ),
        (b"\t a\\\n", &[(1, true, b" a\\\n")]),
        (b"\ta\\", &[(1, true, b"a\\")]),
    ] {
        let lines = logical(rt.alloc(), &file, bytes)?;
        assert!(rt; lines.len() == wanted.len());
        for (line, (number, tab, text)) in lines.iter().zip(wanted) {
            assert!(rt; line.place.file == file && line.place.line == *number);
            assert!(rt; line.tab == *tab && line.text.bytes() == *text);
        }
    }
    Ok(())
}

/// Each line with what is left of it without its comment.
#[test]
fn a_comment_is_cut(rt: HostRuntime) -> Result<(), Fail> {
    for (line, wanted) in [
        (b"a b".as_slice(), b"a b".as_slice()),
        (b"a#b", b"a"),
        (b"#", b""),
        (b"a\\#b#c", b"a#b"),
        (b"a\\\\#b", b"a\\#b"),
        (b"$(a#b)#c", b"$(a#b)"),
        (b"${a#b}c$d\\#", b"${a#b}c$d#"),
        (b"$#x", b"$#x"),
        (b"$$#x", b"$$"),
        (b"#$(b", b""),
        (b"$(b#c", b"$(b#c"),
    ] {
        let text = bare(rt.alloc(), Text::from_slice(rt.alloc(), line)?)?;
        assert!(rt; text.bytes() == wanted);
    }
    laws::law_joined();
    laws::law_bare();
    laws::law_logical();
    Ok(())
}

/// Each line of a recipe with what is kept of it; those in which all references are closed, and
/// that have no `$$`, as GNU make 4.3 keeps them.
#[test]
fn a_reference_is_one_line(rt: HostRuntime) -> Result<(), Fail> {
    for (line, wanted) in [
        (b"a \\\n b".as_slice(), b"a \\\n b".as_slice()),
        (b"$(a \\\n\tb  \\\n \\\n c) \\\nd", b"$(a b c) \\\nd"),
        (b"${\\\na(\\\n)}$x", b"${ a( )}$x"),
        (b"$$(a \\\nb)", b"$$(a \\\nb)"),
        (b"$(a \\\nb", b"$(a \\\nb"),
        (b"$(a\nb \\\nc)", b"$(a\nb c)"),
    ] {
        let kept = folded_references(rt.alloc(), line)?;
        assert!(rt; kept.bytes() == wanted);
    }
    Ok(())
}

/// Beginnings of a second line with how many more bytes it can have.
#[test]
fn a_line_has_a_limit(rt: HostRuntime) -> Result<(), Fail> {
    let file = Text::from_slice(rt.alloc(), b"Makefile")?;
    for (front, most) in [
        (b"x\n".as_slice(), 1_048_576),
        (b"x\n\t", 1_048_576),
        (b"x\n#", 1_048_575),
        (b"x\na \\\n \\\n ", 1_048_574),
    ] {
        let mut bytes = Vec::from_slice(rt.alloc(), front)?;
        bytes.resize(front.len() + most, b'a')?;
        let fits = logical_before(rt.alloc(), &file, bytes.as_slice())?;
        assert!(rt; fits.lines.len() == 2 && fits.too_long.is_none());
        bytes.push(b'a')?;
        let over = joined(rt.alloc(), &file, bytes.as_slice())?;
        assert!(rt; over.lines.len() == 1 && over.too_long.is_some_and(|place| place.line == 2));
        assert!(rt; logical(rt.alloc(), &file, bytes.as_slice()).is_err());
    }
    Ok(())
}

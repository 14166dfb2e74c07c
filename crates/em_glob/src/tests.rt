use super::*;
use std::alloc::{AllocError, Global};
use std::test::Fail;

/// The glyphs of a text, in which a backslash quotes the byte behind it.
fn glyphs(alloc: Global, text: &[u8]) -> Result<Vec<Glyph>, AllocError> {
    let mut glyphs = Vec::new(alloc);
    let mut quoted = false;
    for byte in text {
        if *byte == b'\\' && !quoted {
            quoted = true;
        } else {
            glyphs.push(Glyph {
                byte: *byte,
                quoted,
            })?;
            quoted = false;
        }
    }
    Ok(glyphs)
}

/// Whether each of the names, which end with a `/`, matches the pattern, or none of them does.
fn all_match(
    alloc: Global,
    pattern: &[u8],
    names: &[u8],
    wanted: bool,
) -> Result<bool, AllocError> {
    let glyphs = glyphs(alloc, pattern)?;
    let mut name = Vec::new(alloc);
    for byte in names {
        if *byte != b'/' {
            name.push(*byte)?;
        } else if matches(&glyphs, &name) == wanted {
            name.clear();
        } else {
            return Ok(false);
        }
    }
    Ok(true)
}

#[test]
fn wildcards_match(rt: HostRuntime) -> Result<(), Fail> {
    for (pattern, those, others) in [
        (b"".as_slice(), b"/".as_slice(), b"a/".as_slice()),
        (b"ab", b"ab/", b"/a/abb/ac/"),
        (b"*", b"/a/.a/", b""),
        (b"**", b"/ab/", b""),
        (b"a**b", b"ab/acb/", b"a/"),
        (b"?", b"a/*/", b"/ab/"),
        (b"*?", b"a/ab/", b"/"),
        (b"?*", b"a/abc/", b"/"),
        (b"a*b*c", b"abc/axbbxbcc/", b"axcxb/ac/abcd/"),
        (b"*ab", b"ab/aab/abab/", b"aba/"),
        (b"*aab", b"aaab/", b"ab/"),
        (b"*.c", b".c/a.c/", b"a.cc/c/"),
        (b"*a?b", b"aab/aacb/", b"ab/"),
        // what is quoted
        (b"\\*", b"*/", b"a/\\*/"),
        (b"\\?", b"?/", b"a/"),
        (b"\\a", b"a/", b"\\a/"),
        (b"\\[a]", b"[a]/", b"a/"),
    ] {
        assert!(rt; all_match(rt.alloc(), pattern, those, true)?);
        assert!(rt; all_match(rt.alloc(), pattern, others, false)?);
    }
    Ok(())
}

#[test]
fn sets_match(rt: HostRuntime) -> Result<(), Fail> {
    for (pattern, those, others) in [
        (b"[ab]".as_slice(), b"a/b/".as_slice(), b"/c/ab/".as_slice()),
        // ranges at their ends
        (b"[a-c]", b"a/b/c/", b"`/d/-/"),
        (b"[a-c]x", b"ax/cx/", b"a/x/dx/"),
        (b"[xa-c]", b"x/a/b/", b"-/d/"),
        (b"[a-cx]", b"c/x/", b"d/-/"),
        (b"[a-cx-z]", b"a/y/", b"d/-/"),
        (b"[a-a]", b"a/", b"b/-/"),
        (b"[b-a]", b"", b"a/b/-/"),
        (b"[*?]", b"*/?/", b"a/"),
        (b"[[]", b"[/", b"a/"),
        // what isn't in a set
        (b"[!a]", b"b/!/", b"/a/bc/"),
        (b"[!a-c]", b"d/-/", b"a/b/c/"),
        (b"[!b-a]", b"a/b/", b"/"),
        (b"[a!]", b"a/!/", b"b/"),
        // a bracket or a dash at an end
        (b"[]a]", b"]/a/", b"b/a]/"),
        (b"[!]a]", b"b/!/", b"]/a/"),
        (b"[a]]", b"a]/", b"a/]/"),
        (b"[-a]", b"-/a/", b"b/"),
        (b"[a-]", b"a/-/", b"b/"),
        (b"[a-c-]", b"b/-/", b"d/"),
        (b"[!-a]", b"b/", b"-/a/"),
        // what is quoted in a set
        (b"[a\\]b]", b"]/a/b/", b"ab]/\\/"),
        (b"[a\\-c]", b"-/a/c/", b"b/"),
        (b"[a-\\c]", b"b/", b"-/\\/"),
        (b"[\\!a]", b"!/a/", b"b/"),
        (b"[\\]]", b"]/", b"\\/"),
    ] {
        assert!(rt; all_match(rt.alloc(), pattern, those, true)?);
        assert!(rt; all_match(rt.alloc(), pattern, others, false)?);
    }
    Ok(())
}

#[test]
fn a_bracket_without_its_end_is_itself(rt: HostRuntime) -> Result<(), Fail> {
    for (pattern, those, others) in [
        (b"[".as_slice(), b"[/".as_slice(), b"/a/".as_slice()),
        (b"[a", b"[a/", b"a/"),
        (b"a[", b"a[/", b"a/"),
        (b"[!", b"[!/", b"a/"),
        (b"[]", b"[]/", b"]/"),
        (b"[!]", b"[!]/", b"a/!/"),
        (b"[a\\]", b"[a]/", b"a/"),
        (b"]", b"]/", b"/a/"),
        (b"[a][b", b"a[b/", b"ab/"),
        (b"[*", b"[/[ab/", b"a/"),
    ] {
        assert!(rt; all_match(rt.alloc(), pattern, those, true)?);
        assert!(rt; all_match(rt.alloc(), pattern, others, false)?);
    }
    Ok(())
}

#[test]
fn some_texts_are_patterns(rt: HostRuntime) -> Result<(), Fail> {
    for (pattern, wanted) in [
        (b"".as_slice(), false),
        (b"ab", false),
        (b"*", true),
        (b"a**b", true),
        (b"ab?", true),
        (b"[ab]", true),
        (b"a[!a]", true),
        (b"[b-a]", true),
        (b"[]a]", true),
        (b"[!]a]", true),
        (b"a\\*\\?\\[b]", false),
        (b"[a\\]b]", true),
        (b"[a\\]", false),
        (b"[\\!]", true),
        (b"[", false),
        (b"[a", false),
        (b"a[", false),
        (b"[!", false),
        (b"[]", false),
        (b"[!]", false),
        (b"]a[", false),
        (b"[[]", true),
        (b"[!*", true),
    ] {
        assert!(rt; is_pattern(&glyphs(rt.alloc(), pattern)?) == wanted);
    }
    Ok(())
}

#[test]
fn many_bytes_are_tried_once_for_each_star(rt: HostRuntime) -> Result<(), Fail> {
    for (pattern, byte) in [(b"*a*a*a*b".as_slice(), b'a'), (b"*[[[[[x", b'[')] {
        let name = vec![in rt.alloc(); byte; 300]?;
        assert!(rt; !matches(&glyphs(rt.alloc(), pattern)?, &name));
    }
    Ok(())
}

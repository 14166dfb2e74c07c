use em_base::{NoMemory, Text};
use em_namefn::name_function;
use std::alloc::Global;
use std::test::Fail;

mod wildcards;

fn texts(alloc: Global, items: &[&[u8]]) -> Result<Vec<Text>, NoMemory> {
    let mut texts = Vec::new(alloc);
    for item in items {
        texts.push(Text::from_slice(alloc, item)?)?;
    }
    Ok(texts)
}

/// A name, its arguments, and the value.
type Row = (&'static [u8], &'static [&'static [u8]], &'static [u8]);

/// Calls, with values from the manual of GNU make or worked out by its words.
static CALLS: [Row; 18] = [
    (b"dir", &[b"a/b c", b""], b"a/ ./"),
    (b"dir", &[b"src/foo.c hacks", b""], b"src/ ./"),
    (b"dir", &[b"/ a/ // .. /x", b""], b"/ a/ // ./ /"),
    (b"notdir", &[b"src/foo.c hacks", b""], b"foo.c hacks"),
    (b"notdir", &[b"a/ b", b""], b" b"),
    (
        b"suffix",
        &[b"src/foo.c src-1.0/bar.c hacks", b""],
        b".c .c",
    ),
    (b"suffix", &[b"a.b/c .c a. a.b.c", b""], b".c . .c"),
    (
        b"basename",
        &[b"src/foo.c src-1.0/bar hacks", b""],
        b"src/foo src-1.0/bar hacks",
    ),
    (b"basename", &[b".c x", b""], b" x"),
    (b"addsuffix", &[b".c", b"foo bar"], b"foo.c bar.c"),
    (b"addsuffix", &[b".c", b""], b""),
    (b"addprefix", &[b"src/", b"foo bar"], b"src/foo src/bar"),
    (b"join", &[b"a b", b".c .o"], b"a.c b.o"),
    (b"join", &[b"a b c", b".c"], b"a.c b c"),
    (b"join", &[b"a", b"1 2  3"], b"a1 2 3"),
    // missing arguments are empty
    (b"dir", &[], b""),
    (b"addprefix", &[], b""),
    (b"join", &[], b""),
];

fn is_value(alloc: Global, row: &Row) -> Result<bool, Fail> {
    let args = texts(alloc, row.1)?;
    Ok(match name_function(alloc, row.0, &args)? {
        Some(value) => value.bytes() == row.2,
        None => false,
    })
}

#[test]
fn name_functions_have_values(rt: HostRuntime) -> Result<(), Fail> {
    for row in &CALLS {
        assert!(rt; is_value(rt.alloc(), row)?);
    }
    Ok(())
}

#[test]
fn other_names_are_none(rt: HostRuntime) -> Result<(), Fail> {
    let given = name_function(rt.alloc(), b"subst", &[])?;
    assert!(rt; given.is_none());
    Ok(())
}

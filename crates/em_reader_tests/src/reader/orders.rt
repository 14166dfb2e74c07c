//! The makefile of an order, its command line's variables and goals, and the depth of texts.
use super::*;

/// Texts that put themselves in, 64 and 65 deep.
const DEEP: [Row; 2] = [
    (
        b"MAX := xxxxxxxxxxxxxxxxxxxxxxxxxxxxxxxxxxxxxxxxxxxxxxxxxxxxxxxxxxxxxxxx\ninclude deep.mk\n",
        b"=",
    ),
    (
        b"MAX := xxxxxxxxxxxxxxxxxxxxxxxxxxxxxxxxxxxxxxxxxxxxxxxxxxxxxxxxxxxxxxxxx\ninclude deep.mk\n",
        b"*** deep.mk:3: limit",
    ),
];

/// The makefile's name in the tree and in the order; what is read of `a:` there.
const NAMES: [(&[u8], &[u8], &[u8]); 6] = [
    (b"/GNUmakefile", b"", b"a: |\n=a"),
    (b"/makefile", b"", b"a: |\n=a"),
    (b"/x.mk", b"", b"="),
    (b"/x.mk", b"x.mk", b"a: |\n=a"),
    (b"/x.mk", b"y.mk", b"*** y.mk:1: include y.mk"),
    (b"/x.mk", b"..\n", b"*** ..\n:1: include ..\n"),
];

/// The operator's line, when the command line has `V=$(x)`.
const ASSIGNED: [Row; 5] = [
    (b"V = 1\n", b"= V=$(x)"),
    (b"V := 1\nV += 2\n", b"= V=$(x)"),
    (b"override V = 1\n", b"= V=1"),
    (b"override V += 1\n", b"= V=$(x) 1"),
    (b"undefine V\n", b"= V=$(x)"),
];

#[test]
fn texts_are_at_most_64_deep(rt: HostRuntime) -> Result<(), Fail> {
    compare(rt.alloc(), &DEEP)
}

/// The order's makefile, if one is named.
pub(super) fn makefile(alloc: Global, name: &[u8]) -> Result<Option<Text>, NoMemory> {
    if name.is_empty() {
        return Ok(None);
    }
    Ok(Some(Text::from_slice(alloc, name)?))
}

#[test]
fn the_makefile_is_found_by_its_name(rt: HostRuntime) -> Result<(), Fail> {
    for (file, name, wanted) in &NAMES {
        let mut order = order(rt.alloc())?;
        order.makefile = makefile(rt.alloc(), name)?;
        assert!(rt; is_read(rt.alloc(), &order, (file, b"a:\n"), wanted)?);
    }
    Ok(())
}

/// A variable of the command line.
fn pair(alloc: Global) -> Result<(Text, Text), NoMemory> {
    let name = Text::from_slice(alloc, b"V")?;
    let text = Text::from_slice(alloc, b"$(x)")?;
    Ok((name, text))
}

#[test]
fn the_command_line_keeps_its_variables(rt: HostRuntime) -> Result<(), Fail> {
    let pair = pair(rt.alloc())?;
    let mut order = order(rt.alloc())?;
    order.assigned.push(pair)?;
    for (makefile, wanted) in &ASSIGNED {
        assert!(rt; is_read(rt.alloc(), &order, (b"/Makefile", makefile), wanted)?);
    }
    Ok(())
}

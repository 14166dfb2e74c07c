use super::*;
use em_base::Text;
use std::alloc::Global;
use std::test::Fail;

fn var(alloc: Global, origin: Origin, text: &[u8]) -> Result<Var, Fail> {
    Ok(Var {
        flavour: Flavour::Simple,
        origin,
        text: Text::from_slice(alloc, text)?,
        exported: false,
    })
}

fn set(
    alloc: Global,
    vars: &mut Vars,
    name: &[u8],
    origin: Origin,
    text: &[u8],
) -> Result<bool, Fail> {
    Ok(vars.set(Text::from_slice(alloc, name)?, var(alloc, origin, text)?)?)
}

/// Whether the name has this text.
fn reads(vars: &Vars, name: &[u8], text: &[u8]) -> bool {
    vars.get(name).is_some_and(|v| v.text.bytes() == text)
}

#[test]
fn the_command_line_is_kept_against_files(rt: HostRuntime) -> Result<(), Fail> {
    let mut vars = Vars::new(rt.alloc())?;
    assert!(rt; set(rt.alloc(), &mut vars, b"A", Origin::CommandLine, b"1")?);
    assert!(rt; !set(rt.alloc(), &mut vars, b"A", Origin::File, b"2")?);
    assert!(rt; reads(&vars, b"A", b"1"));
    assert!(rt; set(rt.alloc(), &mut vars, b"A", Origin::Override, b"3")?);
    assert!(rt; reads(&vars, b"A", b"3"));
    Ok(())
}

#[test]
fn a_name_is_undefined(rt: HostRuntime) -> Result<(), Fail> {
    let mut vars = Vars::new(rt.alloc())?;
    set(rt.alloc(), &mut vars, b"A", Origin::CommandLine, b"1")?;
    set(rt.alloc(), &mut vars, b"B", Origin::File, b"2")?;
    vars.undefine(b"A");
    vars.undefine(b"C");
    assert!(rt; vars.get(b"A").is_none());
    assert!(rt; reads(&vars, b"B", b"2"));
    Ok(())
}

const ORIGINS: [Origin; 5] = [
    Origin::Default,
    Origin::File,
    Origin::CommandLine,
    Origin::Override,
    Origin::Automatic,
];

/// For each origin that a variable has, in the order above, whether one of each origin, in that
/// order, replaces it.
const REPLACES: [[bool; 5]; 5] = [
    [true, true, true, true, true],
    [false, true, true, true, true],
    [false, false, true, true, true],
    [false, false, false, true, true],
    [false, false, false, false, true],
];

#[test]
fn origins_rank(rt: HostRuntime) -> Result<(), Fail> {
    for (old, row) in ORIGINS.iter().zip(REPLACES.iter()) {
        for (new, want) in ORIGINS.iter().zip(row.iter()) {
            let mut vars = Vars::new(rt.alloc())?;
            assert!(rt; set(rt.alloc(), &mut vars, b"A", *old, b"old")?);
            assert_eq!(rt; set(rt.alloc(), &mut vars, b"A", *new, b"new")?, *want);
            assert_eq!(rt; reads(&vars, b"A", b"new"), *want);
        }
    }
    Ok(())
}

fn two(alloc: Global, first: &[u8], second: &[u8]) -> Result<Vars, Fail> {
    let mut vars = Vars::new(alloc)?;
    set(alloc, &mut vars, first, Origin::File, first)?;
    set(alloc, &mut vars, second, Origin::File, second)?;
    Ok(vars)
}

#[test]
fn variables_are_compared_in_order(rt: HostRuntime) -> Result<(), Fail> {
    let mut vars = two(rt.alloc(), b"A", b"B")?;
    assert!(rt; vars == two(rt.alloc(), b"A", b"B")?);
    assert!(rt; vars != two(rt.alloc(), b"B", b"A")?);
    assert!(rt; vars.copy(rt.alloc())? == vars);
    set(rt.alloc(), &mut vars, b"A", Origin::File, b"C")?;
    assert!(rt; vars != two(rt.alloc(), b"A", b"B")?);
    Ok(())
}

#[test]
fn a_name_stays_at_its_place(rt: HostRuntime) -> Result<(), Fail> {
    let mut vars = two(rt.alloc(), b"A", b"B")?;
    set(rt.alloc(), &mut vars, b"A", Origin::Override, b"x")?;
    set(rt.alloc(), &mut vars, b"C", Origin::File, b"C")?;
    vars.undefine(b"A");
    assert!(rt; vars == two(rt.alloc(), b"B", b"C")?);
    assert_eq!(rt; vars.len(), 2);
    assert!(rt; !vars.is_empty());
    assert!(rt;
        vars.at(1).is_some_and(|(n, v)| n == b"C".as_slice() && v.text.bytes() == b"C".as_slice())
    );
    assert!(rt; vars.at(2).is_none());
    assert_eq!(rt; vars.iter().count(), 2);
    let v = var(rt.alloc(), Origin::File, b"x")?;
    assert!(rt; v.copy(rt.alloc())? == v);
    Ok(())
}

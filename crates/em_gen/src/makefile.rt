//! The makefile of the generated project.
ghost use Rattle.std.specs.Prelude.{◌≡◌, ◌++◌, IfOk, OnOk, decimal};
ghost use Rattle.std.specs.List.{flat_map, range_with_len};
ghost use Rattle.em_gen.specs.Generated.{word_of, rule_of};
ghost use Rattle.em_gen.specs.Generated as generated;

use em_base::{NoMemory, Text};
use itoa::Buffer;
use std::alloc::Global;

/// Appends a number.
pub fn put_number(out: &mut Text, number: u32) -> Result<(), NoMemory>
    ensures { OnOk result (out.new ≡ out.old ++ decimal number) }
{
    let mut buffer = Buffer::new();
    out.add(buffer.format(number).as_bytes())
}

/// Appends the names of n targets, each behind a blank.
fn put_words(out: &mut Text, n: u32) -> Result<(), NoMemory>
    ensures { OnOk result (out.new ≡ out.old ++ flat_map word_of (range_with_len 0 n)) }
{
    for i in 0..n {
        out.add(b" t")?;
        put_number(out, i)?;
    }
    Ok(())
}

/// Appends the rule of a target.
fn put_rule(out: &mut Text, i: u32) -> Result<(), NoMemory>
    ensures { OnOk result (out.new ≡ out.old ++ rule_of i) }
{
    if i == 0 {
        return out.add(b"t0:\n\tcat s0 > t0\n");
    }
    out.add(b"t")?;
    put_number(out, i)?;
    out.add(b":\n\tcat s")?;
    put_number(out, i)?;
    out.add(b" t")?;
    put_number(out, (i - 1) / 2)?;
    out.add(b" > t")?;
    put_number(out, i)?;
    out.add(b"\n")
}

/// Appends the rules of n targets.
fn put_rules(out: &mut Text, n: u32) -> Result<(), NoMemory>
    ensures { OnOk result (out.new ≡ out.old ++ flat_map rule_of (range_with_len 0 n)) }
{
    for i in 0..n {
        put_rule(out, i)?;
    }
    Ok(())
}

/// The makefile of n targets.
pub fn makefile(alloc: Global, n: u32) -> Result<Text, NoMemory>
    ensures { IfOk result (λ t. t ≡ generated.makefile n) }
{
    let mut out = Text::from_slice(alloc, b"all:")?;
    put_words(&mut out, n)?;
    out.add(b"\n")?;
    put_rules(&mut out, n)?;
    Ok(out)
}

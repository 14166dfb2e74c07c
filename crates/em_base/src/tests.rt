use super::*;
use std::alloc::Global;
use std::test::Fail;

#[test]
fn a_text_grows_and_is_compared_by_its_bytes(rt: HostRuntime) -> Result<(), Fail> {
    let mut text = Text::from_slice(rt.alloc(), b"ab")?;
    text.add(b"c")?;
    let other = Text::from_vec(text.copy(rt.alloc())?.into_vec());
    assert!(rt; text == other);
    assert!(rt; Text::new(rt.alloc()) < text);
    assert_eq!(rt; other.bytes(), b"abc".as_slice());
    Ok(())
}

#[test]
fn fuel_is_taken_whole_or_not_at_all(rt: HostRuntime) {
    let mut fuel = Fuel::new(3);
    assert!(rt; fuel.spend(2).is_ok());
    assert!(rt; fuel.spend(2) == Err(Spent));
    assert_eq!(rt; fuel.left(), 1);
}

#[test]
fn copies_are_equal(rt: HostRuntime) -> Result<(), Fail> {
    let place = Place {
        file: Text::from_slice(rt.alloc(), b"Makefile")?,
        line: 2,
    };
    assert!(rt; place.copy(rt.alloc())? == place);
    for construct in [
        Construct::Depth,
        Construct::Command(Text::from_slice(rt.alloc(), b"trap")?),
        Construct::Letter(Text::from_slice(rt.alloc(), b"ls")?, b'l'),
        Construct::Format(Some(b'x')),
        Construct::MakeName(Text::from_slice(rt.alloc(), b"shell")?),
    ] {
        assert!(rt; construct.copy(rt.alloc())? == construct);
    }
    Ok(())
}

#[test]
fn numbers_are_read_in_canonical_decimal(rt: HostRuntime) {
    for (limit, text, wanted) in [
        (64, b"0".as_slice(), Some(0)),
        (64, b"7".as_slice(), Some(7)),
        (64, b"64".as_slice(), Some(64)),
        (64, b"65".as_slice(), None),
        (64, b"01".as_slice(), None),
        (64, b"+1".as_slice(), None),
        (64, b"".as_slice(), None),
        (64, b"1 ".as_slice(), None),
        (u64::MAX, b"18446744073709551615".as_slice(), Some(u64::MAX)),
        (u64::MAX, b"18446744073709551616".as_slice(), None),
    ] {
        assert!(rt; number(limit, text) == wanted);
    }
}

#[test]
fn blanks_are_trimmed_at_the_two_ends(rt: HostRuntime) {
    for (text, wanted) in [
        (b"".as_slice(), b"".as_slice()),
        (b" \t ", b""),
        (b" \ta b\t ", b"a b"),
        (b"\n a \r", b"\n a \r"),
        (b"a", b"a"),
    ] {
        assert!(rt; trim(text) == wanted);
    }
}

/// A value that holds sequences, as those of the crates above do.
#[derive(Drop, PartialEq, Eq)]
struct Rule {
    names: Seq<Text>,
    lines: Seq<Text>,
}

fn texts(alloc: Global, items: &[&[u8]]) -> Result<Seq<Text>, NoMemory> {
    let mut texts = Seq::new(alloc);
    for item in items {
        texts.push(Text::from_slice(alloc, item)?)?;
    }
    Ok(texts)
}

fn table(alloc: Global, items: &[(&[u8], &[u8])]) -> Result<Table<Text>, NoMemory> {
    let mut table = Table::new(alloc);
    for (name, value) in items {
        table.insert(
            Text::from_slice(alloc, name)?,
            Text::from_slice(alloc, value)?,
        )?;
    }
    Ok(table)
}

#[test]
fn sequences_are_read_by_place(rt: HostRuntime) -> Result<(), Fail> {
    let names = texts(rt.alloc(), &[b"a".as_slice(), b"bc"])?;
    assert_eq!(rt; names.len(), 2);
    assert!(rt; !names.is_empty());
    assert!(rt; names.get(1).is_some_and(|t| t.bytes() == b"bc".as_slice()));
    assert!(rt; names.get(2).is_none());
    assert!(rt; names.try_clone(rt.alloc())? == names);
    assert!(rt; Seq::from_vec(names.into_vec()) != texts(rt.alloc(), &[b"a".as_slice()])?);
    Ok(())
}

#[test]
fn a_stack_gives_the_last_first(rt: HostRuntime) -> Result<(), Fail> {
    let mut stack = Stack::new(rt.alloc());
    assert!(rt; stack.is_empty());
    for n in [1u32, 2, 3] {
        stack.push(n)?;
    }
    assert!(rt; stack.top() == Some(&3));
    assert!(rt; stack.replace_top(7) == Ok(3));
    assert!(rt; stack.pop() == Some(7));
    assert_eq!(rt; stack.len(), 2);
    assert!(rt; stack.pop() == Some(2));
    assert!(rt; stack.pop() == Some(1));
    assert!(rt; stack.pop().is_none());
    assert!(rt; stack.replace_top(8) == Err(8));
    Ok(())
}

#[test]
fn a_table_finds_values_by_name(rt: HostRuntime) -> Result<(), Fail> {
    let entries = [
        (b"b".as_slice(), b"1".as_slice()),
        (b"a/", b"2"),
        (b"a", b"3"),
        (b"b", b"4"),
    ];
    let mut made = table(rt.alloc(), &entries)?;
    assert_eq!(rt; made.len(), 3);
    for (name, value) in [
        (b"a".as_slice(), b"3".as_slice()),
        (b"a/", b"2"),
        (b"b", b"4"),
    ] {
        assert!(rt; made.get(name).is_some_and(|v| v.bytes() == value));
    }
    assert!(rt; made.remove(b"a").is_some());
    assert!(rt; made.remove(b"c").is_none());
    assert!(rt; made.get(b"a").is_none());
    assert!(rt; !made.is_empty());
    Ok(())
}

#[test]
fn what_holds_them_is_compared(rt: HostRuntime) -> Result<(), Fail> {
    let names = texts(rt.alloc(), &[b"a".as_slice()])?;
    let lines = texts(rt.alloc(), &[b"b".as_slice(), b"c"])?;
    let copied = Rule {
        names: names.copy(rt.alloc())?,
        lines: lines.try_clone(rt.alloc())?,
    };
    assert!(rt; Rule { names, lines } == copied);
    Ok(())
}

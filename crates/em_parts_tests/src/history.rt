use em_base::{NoMemory, Text};
use em_history::{History, is_name};
use std::alloc::Global;
use std::test::Fail;

/// Texts, and how many pairs are read of each: the order is that of the lines, newline and all.
const TEXTS: [(&[u8], usize); 24] = [
    (b"EMHIST 1\na b\nb a\n.\n", 2),
    (b"EMHIST 1\nb a\na b\n.\n", 0),
    (b"EMHIST 1\n.\n", 0),
    (b"EMHIST 1\na b\n.\n", 1),
    // a newline is 10, a blank 32
    (b"EMHIST 1\na b\x01\na b\n.\n", 2),
    (b"EMHIST 1\na b\na b\x01\n.\n", 0),
    (b"EMHIST 1\na\x01 b\na b\n.\n", 2),
    (b"EMHIST 1\na b\na\x01 b\n.\n", 0),
    (b"EMHIST 1\na b\na b\x0b\n.\n", 2),
    // no head, no end, and bytes behind the end
    (b"", 0),
    (b"\xff\x00", 0),
    (b"a b\n.\n", 0),
    (b"EMHIST 2\na b\n.\n", 0),
    (b"EMHIST 1\na b\n", 0),
    (b"EMHIST 1\na b.\n", 0),
    (b"EMHIST 1\na b\n.\n\n", 0),
    (b"EMHIST 1\na b\n.\nc d\n", 0),
    // lines that say no pair
    (b"EMHIST 1\nab\n.\n", 0),
    (b"EMHIST 1\na  b\n.\n", 0),
    (b"EMHIST 1\na b \n.\n", 0),
    (b"EMHIST 1\na b c\n.\n", 0),
    (b"EMHIST 1\n b\n.\n", 0),
    (b"EMHIST 1\na \n.\n", 0),
    // a pair twice
    (b"EMHIST 1\na b\na b\n.\n", 0),
];

#[test]
fn texts_are_read(rt: HostRuntime) -> Result<(), Fail> {
    for (text, count) in TEXTS {
        let history = History::read(rt.alloc(), text)?;
        assert_eq!(rt; history.pairs().len(), count, "of {text:?}");
    }
    Ok(())
}

fn pairs(alloc: Global, names: &[(&[u8], &[u8])]) -> Result<Vec<(Text, Text)>, NoMemory> {
    let mut all = Vec::new(alloc);
    for (target, needed) in names {
        all.push((
            Text::from_slice(alloc, target)?,
            Text::from_slice(alloc, needed)?,
        ))?;
    }
    Ok(all)
}

fn add(
    history: &mut History,
    alloc: Global,
    target: &[u8],
    needed: &[u8],
) -> Result<bool, NoMemory> {
    let needed = Text::from_slice(alloc, needed)?;
    history.add(Text::from_slice(alloc, target)?, needed)
}

#[test]
fn histories_change(rt: HostRuntime) -> Result<(), Fail> {
    let alloc = rt.alloc();
    let mut history = History::read(alloc, b"EMHIST 1\na b\nb a\n.\n")?;
    history.merge(alloc, &History::of(pairs(alloc, &[(b"a", b"b")])?)?)?;
    assert_eq!(rt; history.pairs().len(), 2);
    assert!(rt; !add(&mut history, alloc, b"a b", b"c")?);
    assert_eq!(rt; history.pairs().len(), 2);
    assert!(rt; add(&mut history, alloc, b"c", b"a")?);
    assert_eq!(rt; history.pairs().len(), 3);
    let mixed: [(&[u8], &[u8]); 5] = [
        (b"b", b"a"),
        (b"a", b"b\x01"),
        (b"b", b"a"),
        (b"", b"b"),
        (b"b", b"c"),
    ];
    history.merge(alloc, &History::of(pairs(alloc, &mixed)?)?)?;
    let text = history.write(alloc)?;
    assert!(rt; text.bytes() == b"EMHIST 1\na b\x01\na b\nb a\nb c\nc a\n.\n".as_slice());
    assert!(rt; History::new(alloc).write(alloc)?.bytes() == b"EMHIST 1\n.\n".as_slice());
    assert!(rt; is_name(b"a\x01") && !is_name(b"a\t") && !is_name(b""));
    Ok(())
}

use em_base::Text;
use em_image::{ImageNo, Which, read_image, read_text, write_image};
use em_tree::Tree;
use std::alloc::{AllocError, Global};
use std::process::Abort;
use std::test::Fail;

mod corpus;
mod limits;

const SAMPLE: [u8; 50] = *b"EMTREE 1\nd 1 /\nf 1 15 /Makefile\nall:\n\t@echo hi\n\n.\n";

fn fault(alloc: Global, bytes: &[u8]) -> Option<ImageNo> {
    match read_image(alloc, bytes) {
        Ok(_) => None,
        Err(no) => Some(no),
    }
}

/// Whether the tree is written as these bytes.
fn is_written_as(alloc: Global, tree: &Tree, bytes: &[u8]) -> bool {
    match write_image(alloc, tree) {
        Ok(text) => text.bytes() == bytes,
        Err(_) => false,
    }
}

fn tree_of_text(alloc: Global, bytes: &[u8]) -> Result<Tree, Fail> {
    let text = Text::from_slice(alloc, bytes)?;
    Ok(read_text(alloc, text)?)
}

/// Images, each with the count of its nodes and the stamp of its root.
const IMAGES: [(&[u8], usize, u64); 3] = [
    (&SAMPLE, 2, 1),
    (b"EMTREE 1\nd 0 /\n.\n", 1, 0),
    (b"EMTREE 1\nd 4611686018427387904 /\n.\n", 1, 1 << 62),
];

#[test]
fn an_image_is_read_and_written_again(rt: HostRuntime) -> Result<(), Fail> {
    for (bytes, count, base) in &IMAGES {
        let tree = tree_of_text(rt.alloc(), bytes)?;
        assert!(rt; tree.count() == *count && tree.base() == *base);
        assert!(rt; is_written_as(rt.alloc(), &tree, bytes));
    }
    Ok(())
}

/// Texts that are no images, each with its first fault.
const FAULTS: [(&[u8], ImageNo); 18] = [
    (
        b"EMTREE 1\nd 0 /\nf 01 0 /a\n\n.\n",
        ImageNo::Number { at: 17 },
    ),
    (b"EMTREE 1\nd  /\n.\n", ImageNo::Number { at: 11 }),
    (
        b"EMTREE 1\nd 0 /\nf 0 0 /b\n\nf 0 0 /a\n\n.\n",
        ImageNo::Order { at: 31 },
    ),
    (
        b"EMTREE 1\nd 0 /\nd 0 /a\nd 0 /a\n.\n",
        ImageNo::Order { at: 26 },
    ),
    (b"EMTREE 1\nd 0 /\nd 0 /\n.\n", ImageNo::Order { at: 19 }),
    (
        b"EMTREE 1\nd 0 /\nf 0 0 /a/b\n\n.\n",
        ImageNo::Parent { at: 21 },
    ),
    (
        b"EMTREE 1\nd 0 /\nf 0 0 /a\n\nd 0 /a/b\n.\n",
        ImageNo::Parent { at: 29 },
    ),
    (b"EMTREE 1\nf 0 0 /\n\n.\n", ImageNo::Parent { at: 15 }),
    (b"EMTREE 1\nd 0 /a\n.\n", ImageNo::Parent { at: 13 }),
    (b"EMTREE 1\nd 0 /\nd 0 /a/\n.\n", ImageNo::Path { at: 19 }),
    (b"EMTREE 3\nd 0 /\n.\n", ImageNo::Form { at: 7 }),
    (b"EMTREE 1\n.\n", ImageNo::Form { at: 9 }),
    (
        b"EMTREE 1\nd 0 /\nl 0 1 /a\nb\n.\n",
        ImageNo::Form { at: 15 },
    ),
    (
        b"EMTREE 1\nd 0 /\nf 0 1 /a\nbc.\n",
        ImageNo::Form { at: 25 },
    ),
    (b"EMTREE 1\nd 0 /\n.\nx", ImageNo::Rest { at: 17 }),
    (
        b"EMTREE 1\nd 4611686018427387905 /\n.\n",
        ImageNo::Limit {
            which: Which::Stamp,
            at: 11,
        },
    ),
    (
        b"EMTREE 1\nd 99999999999999999999999999 /\n.\n",
        ImageNo::Limit {
            which: Which::Stamp,
            at: 11,
        },
    ),
    (
        b"EMTREE 1\nd 0 /\nf 0 16777217 /a\n",
        ImageNo::Limit {
            which: Which::File,
            at: 19,
        },
    ),
];

#[test]
fn each_fault_has_its_place(rt: HostRuntime) {
    for (bytes, no) in &FAULTS {
        assert_eq!(rt; fault(rt.alloc(), bytes), Some(*no));
    }
}

#[test]
fn a_cut_image_is_short_at_its_end(rt: HostRuntime) {
    for n in 0..50 {
        let at = n as u32;
        assert_eq!(rt;
            fault(rt.alloc(), &SAMPLE[..n]),
            Some(ImageNo::Short { at })
        );
    }
}

fn is_refused_or_kept(alloc: Global, bytes: &[u8]) -> bool {
    match read_image(alloc, bytes) {
        Ok(tree) => is_written_as(alloc, &tree, bytes),
        Err(_) => true,
    }
}

#[test]
fn a_byte_of_zeros_is_refused_or_kept(rt: HostRuntime) {
    for n in 0..50 {
        let mut bytes = SAMPLE;
        bytes[n] = 0;
        assert!(rt; is_refused_or_kept(rt.alloc(), &bytes));
    }
}

/// The text of an image with the root and a directory below it for each number from `first` up to
/// `past`.
fn directories(alloc: Global, first: u32, past: u32) -> Result<String, AllocError> {
    let mut text = String::from_str(alloc, "EMTREE 1\nd 0 /\n")?;
    for i in first..past {
        write!(text, "d 0 /{i:06}\n")?;
    }
    text.push_str(".\n")?;
    Ok(text)
}

#[test]
fn the_hundred_thousandth_node_is_the_last(rt: HostRuntime) -> Result<(), Fail> {
    let full = directories(rt.alloc(), 0, 99_999)?;
    assert!(rt;
        is_written_as(
            rt.alloc(),
            &read_image(rt.alloc(), full.as_bytes())?,
            full.as_bytes()
        )
    );
    Ok(())
}

#[test]
fn a_further_node_is_one_too_many(rt: HostRuntime) -> Result<(), Fail> {
    let over = directories(rt.alloc(), 0, 100_000)?;
    let no = ImageNo::Limit {
        which: Which::Nodes,
        at: 1_200_003,
    };
    assert_eq!(rt; fault(rt.alloc(), over.as_bytes()), Some(no));
    Ok(())
}

/// `ok` where the image is read and written again as it was, else what is said of it.
fn verdict(alloc: Global, bytes: &[u8]) -> Result<String, AllocError> {
    match read_image(alloc, bytes) {
        Ok(tree) if is_written_as(alloc, &tree, bytes) => String::from_str(alloc, "ok"),
        Ok(_) => String::from_str(alloc, "another text"),
        Err(no) => format!(in alloc; "{no}"),
    }
}

/// Each image gets the verdict that stands beside it.
fn check(rt: &impl Abort, alloc: Global, rows: &[(&[u8], &str)]) -> Result<(), Fail> {
    for (bytes, wanted) in rows {
        let given = verdict(alloc, bytes)?;
        assert_eq!(rt; given.as_str(), *wanted);
    }
    Ok(())
}

/// Images with symbolic links, whole and broken.
static LINKS: [(&[u8], &str); 22] = [
    (b"EMTREE 2\nd 0 /\nl 0 1 /l\na\n.\n", "ok"),
    (b"EMTREE 2\nd 0 /\nl 9 11 /l\n/etc/passwd\n.\n", "ok"),
    (
        b"EMTREE 2\nd 0 /\nd 0 /d\nl 1 5 /d/l\n../\xff\x01\nf 1 0 /f\n\nl 2 1 /m\nl\n.\n",
        "ok",
    ),
    (b"EMTREE 2\nd 0 /\n.\n", "Form at byte 15"),
    (b"EMTREE 2\nd 0 /\nf 0 1 /l\nl\n.\n", "Form at byte 26"),
    (b"EMTREE 2\nd 0 /\n.", "Form at byte 15"),
    (b"EMTREE 2\n.\n", "Form at byte 9"),
    (b"EMTREE 2 \nd 0 /\n.\n", "Form at byte 8"),
    (b"EMTREE 2", "Short at byte 8"),
    (b"EMTREE 12\nd 0 /\n.\n", "Form at byte 8"),
    (b"EMTREE 1\nd 0 /\nl 0 0 /l\n\n.\n", "Form at byte 15"),
    (b"EMTREE 2\nl 0 1 /\na\n.\n", "Parent at byte 15"),
    (
        b"EMTREE 2\nd 0 /\nl 0 1 /l\na\nd 0 /l/d\n.\n",
        "Parent at byte 30",
    ),
    (
        b"EMTREE 2\nd 0 /\nl 0 0 /l\n\n.\n",
        "Limit(Link) at byte 19",
    ),
    (b"EMTREE 2\nd 0 /\nl 0 1025 l", "Limit(Link) at byte 19"),
    (b"EMTREE 2\nd 0 /\nl 0 00 /l\n\n.\n", "Number at byte 19"),
    (b"EMTREE 2\nd 0 /\nl 0 1024 /l\na\n", "Short at byte 29"),
    (b"EMTREE 2\nd 0 /\nl 0 4 /l\na\n\0", "Short at byte 27"),
    (b"EMTREE 2\nd 0 /\nl 0 3 /l\na\n\0\n.\n", "Form at byte 25"),
    (b"EMTREE 2\nd 0 /\nl 0 3 /l\n\0\n\0\n.\n", "Form at byte 24"),
    (b"EMTREE 2\nd 0 /\nl 0 1 /l\nab\n.\n", "Form at byte 25"),
    (b"EMTREE 2\nd 0 /\nl 0 1 /l\na\n.\n\n", "Rest at byte 28"),
];

#[test]
fn links_are_read_and_written_again(rt: HostRuntime) -> Result<(), Fail> {
    check(&rt, rt.alloc(), &LINKS)
}

/// One of the nineteen parts of the corpus.
fn part(number: u8) -> &'static [(&'static [u8], &'static str)] {
    match number {
        0 => &corpus::PART_0,
        1 => &corpus::PART_1,
        2 => &corpus::PART_2,
        3 => &corpus::PART_3,
        4 => &corpus::PART_4,
        5 => &corpus::PART_5,
        6 => &corpus::PART_6,
        7 => &corpus::PART_7,
        8 => &corpus::PART_8,
        9 => &corpus::PART_9,
        10 => &corpus::PART_10,
        11 => &corpus::PART_11,
        12 => &corpus::PART_12,
        13 => &corpus::PART_13,
        14 => &corpus::PART_14,
        15 => &corpus::PART_15,
        16 => &corpus::PART_16,
        17 => &corpus::PART_17,
        _ => &corpus::PART_18,
    }
}

#[test]
fn the_corpus(rt: HostRuntime) -> Result<(), Fail> {
    for number in 0..19 {
        check(&rt, rt.alloc(), part(number))?;
    }
    Ok(())
}

//! The greatest plan and one name more, and a new image that breaks a limit.
use crate::runs::run;
use em_base::Text;
use em_host::MemHost;
use std::alloc::Global;
use std::process::Abort;
use std::sync::Wait;
use std::test::Fail;
use std::thread::Threads;

const BLOCK: &[u8] = &[b'x'; 4096];

/// An image of a root, a makefile, and a file `big` of so many blocks.
pub fn image_of(alloc: Global, makefile: &str, blocks: usize) -> Result<Text, Fail> {
    let size = makefile.len();
    let big = blocks.saturating_mul(BLOCK.len());
    let head = format!(in alloc;
        "EMTREE 1\nd 5 /\nf 5 {size} /Makefile\n{makefile}\nf 5 {big} /big\n"
    )?;
    let mut image = Text::from_slice(alloc, head.as_bytes())?;
    for _ in 0..blocks {
        image.add(BLOCK)?;
    }
    image.add(b"\n.\n")?;
    Ok(image)
}

/// `all` with so many prerequisites, and a rule with these as targets.
fn fan(alloc: Global, count: u32) -> Result<String, Fail> {
    let mut names = String::new(alloc);
    for i in 0..count {
        write!(names, " x{i}")?;
    }
    Ok(format!(in alloc; "all:{names}\n{names}:\n")?)
}

/// Builds with these words: what is printed and the status are these, and the image stays.
pub fn check<R: Abort + Threads + Wait + Sync>(
    rt: &R,
    alloc: Global,
    words: &str,
    image: &[u8],
    printed: &str,
    status: u8,
) -> Result<(), Fail> {
    let mut host = MemHost::new(alloc);
    host.put(alloc, b"i", image)?;
    let (said, ended) = run(rt, alloc, words, &mut host)?;
    let is_said = said.bytes() == printed.as_bytes();
    assert!(rt; is_said, "not said: {printed}");
    assert_eq!(rt; ended, status);
    let is_same = host.file(b"i") == Some(image);
    assert!(rt; is_same, "the image after: {printed}");
    Ok(())
}

#[test]
fn at_most_65536_jobs_are_planned(rt: HostRuntime) -> Result<(), Fail> {
    let alloc = rt.alloc();
    for (count, printed, status) in [
        (65_535, "emake: Nothing to be done for 'all'.\n", 0),
        (65_536, "emake: *** Too many jobs.  Stop.\n", 2),
    ] {
        let makefile = fan(alloc, count)?;
        let image = image_of(alloc, makefile.as_str(), 0)?;
        check(&rt, alloc, "-I i", image.bytes(), printed, status)?;
    }
    Ok(())
}

#[test]
fn an_image_that_grows_too_long_is_not_written(rt: HostRuntime) -> Result<(), Fail> {
    let alloc = rt.alloc();
    let makefile = "all:\n\tcp big a\n\tcp big b\n\tcp big c\n\tcp big d\n";
    let image = image_of(alloc, makefile, 4096)?;
    let printed = "emake: *** image: Limit(Image) at byte 0.  Stop.\n";
    check(&rt, alloc, "-s -I i", image.bytes(), printed, 2)
}

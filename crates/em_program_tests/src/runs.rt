//! Whole runs over a host in memory.
use crate::builds::{After, BUILDS, Build, MAKES};
use em_base::{Seq, Text};
use em_host::MemHost;
use em_program::emake;
use std::alloc::Global;
use std::process::Abort;
use std::sync::Wait;
use std::test::Fail;
use std::thread::Threads;

/// The words that blanks part.
pub fn words_of(alloc: Global, words: &str) -> Result<Seq<Text>, Fail> {
    let mut texts = Seq::new(alloc);
    for word in words.split_whitespace() {
        texts.push(Text::from_slice(alloc, word.as_bytes())?)?;
    }
    Ok(texts)
}

/// `emake` with these words: what it prints more, and its status.
pub fn run<R: Threads + Wait + Sync>(
    rt: &R,
    alloc: Global,
    words: &str,
    host: &mut MemHost,
) -> Result<(Text, u8), Fail> {
    let printed = host.printed().len();
    let texts = words_of(alloc, words)?;
    let status = emake(rt, alloc, texts.items(), host).status;
    let more = host.printed().get(printed..).unwrap_or(&[]);
    Ok((Text::from_slice(alloc, more)?, status))
}

/// The image's bytes.
pub fn image(alloc: Global, host: &MemHost) -> Result<Text, Fail> {
    Ok(Text::from_slice(alloc, host.file(b"i").unwrap_or(&[]))?)
}

fn is_left(after: &After, before: &[u8], left: &[u8]) -> bool {
    match after {
        After::Same => left == before,
        After::Is(image) => left == *image,
        After::Any => true,
    }
}

/// The build's words, with that many workers unless they say how many.
fn with_workers(alloc: Global, workers: &str, words: &str) -> Result<String, Fail> {
    let said = if words.contains("-j") { "" } else { workers };
    Ok(format!(in alloc; "{said} {words}")?)
}

fn try_build<R: Abort + Threads + Wait + Sync>(
    rt: &R,
    alloc: Global,
    workers: &str,
    number: usize,
    build: &Build,
    host: &mut MemHost,
) -> Result<(), Fail> {
    if let Some(image) = build.before {
        host.put(alloc, b"i", image)?;
    }
    let before = image(alloc, host)?;
    let words = with_workers(alloc, workers, build.words)?;
    let (printed, status) = run(rt, alloc, words.as_str(), host)?;
    let left = image(alloc, host)?;
    let said = printed.bytes() == build.printed;
    let is_right = said && status == build.status;
    let is_left = is_left(&build.after, before.bytes(), left.bytes());
    assert!(rt;
        is_right,
        "what build {number} prints, or its status, with {words}"
    );
    assert!(rt; is_left, "the image after build {number}, with {words}");
    Ok(())
}

/// All builds one after another, with that many workers.
fn try_builds<R: Abort + Threads + Wait + Sync>(
    rt: &R,
    alloc: Global,
    workers: &str,
) -> Result<(), Fail> {
    let mut host = MemHost::new(alloc);
    for (number, build) in BUILDS.iter().enumerate() {
        try_build(rt, alloc, workers, number, build, &mut host)?;
    }
    Ok(())
}

#[test]
fn builds_come_out_as_told(rt: HostRuntime) -> Result<(), Fail> {
    for workers in ["", "-j 8"] {
        try_builds(&rt, rt.alloc(), workers)?;
    }
    Ok(())
}

/// The same of the builds with makes within a make.
fn try_makes<R: Abort + Threads + Wait + Sync>(
    rt: &R,
    alloc: Global,
    workers: &str,
) -> Result<(), Fail> {
    let mut host = MemHost::new(alloc);
    for (number, build) in MAKES.iter().enumerate() {
        try_build(rt, alloc, workers, number, build, &mut host)?;
    }
    Ok(())
}

#[test]
fn makes_within_makes_come_out_as_told(rt: HostRuntime) -> Result<(), Fail> {
    for workers in ["", "-j 8"] {
        try_makes(&rt, rt.alloc(), workers)?;
    }
    Ok(())
}

/// Words and an image whose build prints twice, and replaces the image then: takes it, prints,
/// prints, replaces.
pub const TWO: (&str, &[u8]) = (
    "-I i a",
    b"EMTREE 1\nd 5 /\nf 5 28 /Makefile\na: b\n\tcp b a\nb:\n\techo x > b\n\n.\n",
);

#[test]
fn behind_a_failed_call_nothing_is_called(rt: HostRuntime) -> Result<(), Fail> {
    let alloc = rt.alloc();
    for (failing, printed, calls) in [
        (0, "", 1),
        (1, "", 2),
        (2, "echo x > b\n", 3),
        (3, "echo x > b\ncp b a\n", 4),
    ] {
        let mut host = MemHost::new(alloc);
        host.put(alloc, b"i", TWO.1)?;
        host.fail_at(failing)?;
        let (said, status) = run(&rt, alloc, TWO.0, &mut host)?;
        let left = image(alloc, &host)?;
        let is_left = said.bytes() == printed.as_bytes() && left.bytes() == TWO.1;
        assert!(rt; is_left, "where call {failing} fails");
        assert_eq!(rt; status, 3);
        assert_eq!(rt; host.calls().len(), calls);
    }
    Ok(())
}

#[test]
fn an_absent_image_is_refused(rt: HostRuntime) -> Result<(), Fail> {
    let mut host = MemHost::new(rt.alloc());
    let (said, status) = run(&rt, rt.alloc(), "-I i all", &mut host)?;
    assert_eq!(rt;
        said.bytes(),
        b"emake: *** image: absent.  Stop.\n".as_slice()
    );
    assert_eq!(rt; status, 2);
    assert!(rt; host.file(b"i").is_none());
    Ok(())
}

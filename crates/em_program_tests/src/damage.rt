//! Cut images, histories of all kinds, and a host that fails at each of its calls.
use crate::big::check;
use crate::builds::PROJECT;
use crate::runs::{TWO, image, run};
use em_base::{Seq, Text};
use em_gen::project;
use em_history::History;
use em_host::MemHost;
use em_image::write_image;
use std::alloc::Global;
use std::process::Abort;
use std::sync::Wait;
use std::test::Fail;
use std::thread::Threads;

#[test]
fn a_cut_image_replaces_nothing(rt: HostRuntime) -> Result<(), Fail> {
    let alloc = rt.alloc();
    for (length, _) in PROJECT.iter().enumerate() {
        let cut = PROJECT.get(..length).unwrap_or(&[]);
        let printed = format!(in alloc; "emake: *** image: Short at byte {length}.  Stop.\n")?;
        check(&rt, alloc, "-I i -j 4", cut, printed.as_str(), 2)?;
    }
    Ok(())
}

/// How many jobs the generated project has: `all`, and one for each source.
const JOBS: usize = 101;

/// The target of the generated project's job of this number.
fn target(alloc: Global, job: usize) -> Result<Text, Fail> {
    if job == 0 {
        return Ok(Text::from_slice(alloc, b"all")?);
    }
    let number = job.saturating_sub(1);
    let name = format!(in alloc; "t{number}")?;
    Ok(Text::from_slice(alloc, name.as_bytes())?)
}

/// A history that pairs each job of the generated project with each other.
fn all_pairs(alloc: Global) -> Result<Text, Fail> {
    let mut pairs = Vec::new(alloc);
    for i in 0..JOBS * JOBS {
        let (job, needed) = (i / JOBS, i % JOBS);
        if job != needed {
            pairs.push((target(alloc, job)?, target(alloc, needed)?))?;
        }
    }
    Ok(History::of(pairs)?.write(alloc)?)
}

/// The histories.
fn histories(alloc: Global) -> Result<Seq<Text>, Fail> {
    let mut all = Seq::new(alloc);
    for text in [
        b"EMHIST 1\na a\n.\n".as_slice(),
        b"",
        b"EMHIST 1\na b\nb a\n.",
    ] {
        all.push(Text::from_slice(alloc, text)?)?;
    }
    all.push(all_pairs(alloc)?)?;
    Ok(all)
}

/// What a build printed, the image after it, and its status.
type Came = (Text, Text, u8);

/// What comes of a build with these words, and with this history in the file `H`.
fn built<R: Threads + Wait + Sync>(
    rt: &R,
    alloc: Global,
    words: &str,
    before: &[u8],
    history: &[u8],
) -> Result<Came, Fail> {
    let mut host = MemHost::new(alloc);
    host.put(alloc, b"i", before)?;
    host.put(alloc, b"H", history)?;
    let (printed, status) = run(rt, alloc, words, &mut host)?;
    Ok((printed, image(alloc, &host)?, status))
}

/// Builds with each history, and without one: the same comes of all.
fn compare<R: Abort + Threads + Wait + Sync>(
    rt: &R,
    alloc: Global,
    before: &[u8],
    histories: &[Text],
) -> Result<(), Fail> {
    let alone = built(rt, alloc, "-I i -j 4", before, b"")?;
    for (number, history) in histories.iter().enumerate() {
        let words = "-I i -j 4 --history H";
        let with = built(rt, alloc, words, before, history.bytes())?;
        let is_same = with == alone;
        assert!(rt; is_same, "what comes of history {number}");
    }
    Ok(())
}

#[test]
fn no_history_changes_what_is_built(rt: HostRuntime) -> Result<(), Fail> {
    let alloc = rt.alloc();
    let histories = histories(alloc)?;
    compare(&rt, alloc, TWO.1, histories.items())?;
    compare(&rt, alloc, PROJECT, histories.items())?;
    let generated = write_image(alloc, &project(alloc, 100)?)?;
    compare(&rt, alloc, generated.bytes(), histories.items())
}

/// What the image is where it was replaced.
const NEW: &[u8] =
    b"EMTREE 1\nd 1048582 /\nf 5 28 /Makefile\na: b\n\tcp b a\nb:\n\techo x > b\n\nf 1048582 2 /a\nx\n\nf 7 2 /b\nx\n\n.\n";

/// Which call fails, what was printed then, and whether the image and the history were replaced.
/// The calls are: image and history are taken, two jobs print, image, history and report are
/// replaced.
const FAILING: [(u64, &str, bool, bool); 7] = [
    (0, "", false, false),
    (1, "", false, false),
    (2, "", false, false),
    (3, "echo x > b\n", false, false),
    (4, "echo x > b\ncp b a\n", false, false),
    (5, "echo x > b\ncp b a\n", true, false),
    (6, "echo x > b\ncp b a\n", true, true),
];

/// Whether the files are these, and there is no report.
fn are_left(host: &MemHost, new_image: bool, new_history: bool) -> bool {
    let image = if new_image { NEW } else { TWO.1 };
    let history = if new_history {
        b"EMHIST 1\n.\n".as_slice()
    } else {
        b"none"
    };
    host.file(b"i") == Some(image) && host.file(b"H") == Some(history) && host.file(b"R").is_none()
}

/// Builds with four workers over a host whose call of this number fails.
fn fail_at<R: Abort + Threads + Wait + Sync>(
    rt: &R,
    alloc: Global,
    row: (u64, &str, bool, bool),
) -> Result<(), Fail> {
    let (failing, printed, new_image, new_history) = row;
    let mut host = MemHost::new(alloc);
    host.put(alloc, b"i", TWO.1)?;
    host.put(alloc, b"H", b"none")?;
    host.fail_at(failing)?;
    let (said, status) = run(rt, alloc, "-I i -j 4 --history H --report R a", &mut host)?;
    let is_ended = status == 3 && host.calls().len() as u64 == failing.saturating_add(1);
    let is_left = said.bytes() == printed.as_bytes() && are_left(&host, new_image, new_history);
    assert!(rt; is_ended, "the status where call {failing} fails");
    assert!(rt; is_left, "what is left where call {failing} fails");
    Ok(())
}

#[test]
fn each_call_of_the_host_fails_once(rt: HostRuntime) -> Result<(), Fail> {
    for row in FAILING {
        fail_at(&rt, rt.alloc(), row)?;
    }
    Ok(())
}

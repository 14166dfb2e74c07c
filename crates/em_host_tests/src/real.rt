use crate::watched::{Failing, Watch, Watched};
use em_base::NoMemory;
use em_host::{Host, HostNo, RealHost};
use std::alloc::Global;
use std::fs;
use std::fs::{OpenOptions, Permissions};
use std::os::unix::fs::{MetadataExt, OpenOptionsExt, PermissionsExt, symlink};
use std::rt::Files;
use std::test::Fail;

/// Whether these bytes stand at the path.
fn holds<R: Files + Alloc>(rt: &R, path: &str, bytes: &[u8]) -> bool {
    match fs::read(rt, path) {
        Ok(read) => read.as_slice() == bytes,
        Err(_) => false,
    }
}

/// Whether the last fault is said in these words.
fn says<R: Files>(alloc: Global, host: &RealHost<R>, words: &str) -> bool {
    match host.fault().map(|fault| fault.words(alloc)) {
        Some(Ok(said)) => said.as_str() == words,
        _ => false,
    }
}

#[test]
fn a_real_host_reaches_files_and_the_output(rt: HostRuntime) -> Result<(), Fail> {
    let mut host = RealHost::new(rt.alloc(), rt.clone()?);
    fs::create_dir(&rt, "em_host.plain")?;
    for left in 0..3 {
        let name = format!(in rt.alloc(); "em_host.plain/.emake-new-{left}")?;
        fs::write(&rt, name.as_str(), b"half")?;
    }
    for bytes in [b"old".as_slice(), b"", b"new bytes"] {
        host.replace(rt.alloc(), b"em_host.plain/i", bytes)?;
        let taken = host.take(rt.alloc(), b"em_host.plain/i")?;
        assert!(rt; taken.as_ref().map(|b| b.as_slice()) == Some(bytes));
    }
    assert!(rt; holds(&rt, "em_host.plain/.emake-new-2", b"half"));
    assert!(rt; !fs::exists(&rt, "em_host.plain/.emake-new-3")?);
    assert!(rt; host.take(rt.alloc(), b"em_host.plain/absent")?.is_none());
    assert!(rt; host.fault().is_none());
    host.print(b"printed\n")?;
    fs::remove_dir_all(&rt, "em_host.plain")?;
    Ok(())
}

#[test]
fn a_file_is_replaced_in_order_or_stays(rt: HostRuntime) -> Result<(), Fail> {
    for (failing, said) in [
        (Failing::Nothing, ""),
        (Failing::Write, "em_host.order/i: no storage space"),
        (Failing::Sync, "em_host.order/i: no storage space"),
        (Failing::Rename, "em_host.order/i: no storage space"),
        (Failing::Lock, "em_host.order/i: its folder stays locked"),
    ] {
        fs::create_dir(&rt, "em_host.order")?;
        fs::write(&rt, "em_host.order/i", b"old")?;
        fs::hard_link(&rt, "em_host.order/i", "em_host.order/kept")?;
        let watch = Watch::new();
        let mut host = RealHost::new(
            rt.alloc(),
            Watched {
                rt: rt.clone()?,
                watch: &watch,
                failing,
                folder: "em_host.order",
            },
        );
        let answer = host.replace(rt.alloc(), b"em_host.order/i", b"new bytes");
        if failing == Failing::Nothing {
            assert!(rt; answer.is_ok() && watch.is_in_order());
            assert!(rt; holds(&rt, "em_host.order/i", b"new bytes"));
        } else {
            assert!(rt;
                answer == Err(HostNo::Failed) && says(rt.alloc(), &host, said),
                "{said}"
            );
            assert!(rt; holds(&rt, "em_host.order/i", b"old"));
        }
        assert!(rt; holds(&rt, "em_host.order/kept", b"old"));
        fs::remove_file(&rt, "em_host.order/i")?;
        fs::remove_file(&rt, "em_host.order/kept")?;
        // Removes only what is empty: so nothing else was left.
        fs::remove_dir(&rt, "em_host.order")?;
    }
    Ok(())
}

/// What is no regular file, or can't be reached, and why.
static NO_FILES: [(&str, &str); 6] = [
    ("em_host.kinds/d", "em_host.kinds/d: not a regular file"),
    (
        "em_host.kinds/to-d",
        "em_host.kinds/to-d: not a regular file",
    ),
    (
        "em_host.kinds/null",
        "em_host.kinds/null: not a regular file",
    ),
    ("/dev/null", "/dev/null: not a regular file"),
    ("em_host.kinds/f/x", "em_host.kinds/f/x: Not a directory"),
    (
        "em_host.kinds/around",
        "em_host.kinds/around: Too many levels of symbolic links",
    ),
];

#[test]
fn only_regular_files_are_reached(rt: HostRuntime) -> Result<(), Fail> {
    fs::create_dir(&rt, "em_host.kinds")?;
    fs::create_dir(&rt, "em_host.kinds/d")?;
    fs::write(&rt, "em_host.kinds/f", b"f")?;
    symlink(&rt, "d", "em_host.kinds/to-d")?;
    symlink(&rt, "/dev/null", "em_host.kinds/null")?;
    symlink(&rt, "around", "em_host.kinds/around")?;
    symlink(&rt, "nowhere", "em_host.kinds/dangling")?;
    let mut host = RealHost::new(rt.alloc(), rt.clone()?);
    for (name, words) in NO_FILES {
        assert!(rt; host.take(rt.alloc(), name.as_bytes()).is_err(), "{name}");
        assert!(rt; says(rt.alloc(), &host, words), "{words}");
        assert!(rt;
            host.replace(rt.alloc(), name.as_bytes(), b"x").is_err(),
            "{name}"
        );
        assert!(rt; says(rt.alloc(), &host, words), "{words}");
    }
    assert!(rt; host.take(rt.alloc(), b"em_host.kinds/dangling")?.is_none());
    assert!(rt;
        host.replace(rt.alloc(), b"em_host.kinds/dangling", b"x")
            .is_err()
    );
    assert!(rt;
        says(
            rt.alloc(),
            &host,
            "em_host.kinds/dangling: No such file or directory"
        )
    );
    assert!(rt;
        host.replace(rt.alloc(), b"em_host.kinds/none/x", b"x")
            .is_err()
    );
    assert!(rt; host.take(rt.alloc(), b"em_host.kinds/\xff").is_err());
    assert!(rt; !fs::exists(&rt, "em_host.kinds/nowhere")? && holds(&rt, "em_host.kinds/f", b"f"));
    fs::remove_dir_all(&rt, "em_host.kinds")?;
    Ok(())
}

#[test]
fn links_stay_and_permissions_too(rt: HostRuntime) -> Result<(), Fail> {
    fs::create_dir(&rt, "em_host.links")?;
    fs::create_dir(&rt, "em_host.links/d")?;
    fs::write(&rt, "em_host.links/d/i", b"old")?;
    fs::set_permissions(&rt, "em_host.links/d/i", Permissions::from_mode(0o640))?;
    symlink(&rt, "d/i", "em_host.links/l")?;
    let mut host = RealHost::new(rt.alloc(), rt.clone()?);
    host.replace(rt.alloc(), b"em_host.links/l", b"new")?;
    assert!(rt; holds(&rt, "em_host.links/d/i", b"new"));
    assert!(rt; fs::symlink_metadata(&rt, "em_host.links/l")?.is_symlink());
    assert_eq!(rt;
        fs::metadata(&rt, "em_host.links/d/i")?.mode() & 0o7777,
        0o640
    );
    fs::remove_dir_all(&rt, "em_host.links")?;
    Ok(())
}

#[test]
fn a_second_name_of_a_file_is_refused(rt: HostRuntime) -> Result<(), Fail> {
    fs::create_dir(&rt, "em_host.names")?;
    fs::write(&rt, "em_host.names/i", b"old")?;
    fs::hard_link(&rt, "em_host.names/i", "em_host.names/hard")?;
    symlink(&rt, "i", "em_host.names/l")?;
    let mut host = RealHost::new(rt.alloc(), rt.clone()?);
    for name in ["i", "l", "./i", "hard", "i"] {
        let name = format!(in rt.alloc(); "em_host.names/{name}")?;
        assert!(rt; host.take(rt.alloc(), name.as_bytes())?.is_some(), "{name}");
    }
    for stage in [b"old".as_slice(), b"new"] {
        for (name, words) in [
            (
                "em_host.names/l",
                "em_host.names/l: the same file under two names",
            ),
            (
                "em_host.names/./i",
                "em_host.names/./i: the same file under two names",
            ),
            (
                "em_host.names/hard",
                "em_host.names/hard: the same file under two names",
            ),
        ] {
            assert!(rt;
                host.replace(rt.alloc(), name.as_bytes(), b"x").is_err(),
                "{name}"
            );
            assert!(rt; says(rt.alloc(), &host, words), "{words}");
            assert!(rt; holds(&rt, "em_host.names/i", stage), "{name}");
            assert!(rt; holds(&rt, "em_host.names/hard", b"old"), "{name}");
        }
        host.replace(rt.alloc(), b"em_host.names/i", b"new")?;
    }
    // A file of its own is replaced again and again, also where numbers of inodes come again.
    for _ in 0..3 {
        host.replace(rt.alloc(), b"em_host.names/i", b"new")?;
        host.replace(rt.alloc(), b"em_host.names/other", b"other")?;
    }
    fs::remove_dir_all(&rt, "em_host.names")?;
    Ok(())
}

#[test]
fn what_changed_meanwhile_is_not_replaced(rt: HostRuntime) -> Result<(), Fail> {
    fs::create_dir(&rt, "em_host.meanwhile")?;
    fs::write(&rt, "em_host.meanwhile/i", b"old")?;
    for name in ["em_host.meanwhile/i", "em_host.meanwhile/h"] {
        let mut first = RealHost::new(rt.alloc(), rt.clone()?);
        let mut second = RealHost::new(rt.alloc(), rt.clone()?);
        let _ = first.take(rt.alloc(), name.as_bytes())?;
        let _ = second.take(rt.alloc(), name.as_bytes())?;
        second.replace(rt.alloc(), name.as_bytes(), b"second")?;
        assert!(rt;
            first
                .replace(rt.alloc(), name.as_bytes(), b"first")
                .is_err(),
            "{name}"
        );
        let words = format!(in rt.alloc(); "{name}: changed meanwhile")?;
        assert!(rt; says(rt.alloc(), &first, words.as_str()), "{name}");
        assert!(rt; holds(&rt, name, b"second"), "{name}");
        let _ = first.take(rt.alloc(), name.as_bytes())?;
        first.replace(rt.alloc(), name.as_bytes(), b"first")?;
    }
    fs::remove_dir_all(&rt, "em_host.meanwhile")?;
    Ok(())
}

#[test]
fn a_long_file_is_read_to_a_bound(rt: HostRuntime) -> Result<(), Fail> {
    let mut options = OpenOptions::new();
    options.write(true).create_new(true).mode(0o600);
    let file = options.open(&rt, "em_host.long")?;
    let mut host = RealHost::new(rt.alloc(), rt.clone()?);
    for (length, read) in [
        (67_108_864, 67_108_864),
        (67_108_865, 67_108_865),
        (99_999_999, 67_108_865),
    ] {
        file.set_len(length)?;
        let taken = host.take(rt.alloc(), b"em_host.long")?.ok_or("absent")?;
        assert_eq!(rt; taken.len(), read);
    }
    fs::remove_file(&rt, "em_host.long")?;
    Ok(())
}

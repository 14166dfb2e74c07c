use super::*;
use std::alloc::Global;
use std::test::Fail;

fn path(alloc: Global, text: &[u8]) -> Result<Path, Fail> {
    Ok(Path::from_text(alloc, text)?.ok_or("no path")?)
}

#[test]
fn a_name_is_read_against_a_directory(rt: HostRuntime) -> Result<(), Fail> {
    let cwd = path(rt.alloc(), b"/d")?;
    for (name, want) in [
        (b"../x//y/.".as_slice(), b"/x/y".as_slice()),
        (b"a".as_slice(), b"/d/a".as_slice()),
        (b"../../..".as_slice(), b"/".as_slice()),
        (b"/".as_slice(), b"/".as_slice()),
        (b"//a//".as_slice(), b"/a".as_slice()),
        (b"./b/".as_slice(), b"/d/b".as_slice()),
        (b"...".as_slice(), b"/d/...".as_slice()),
    ] {
        let p = Path::read(rt.alloc(), &cwd, name)?;
        assert_eq!(rt; p.text(), want);
    }
    Ok(())
}

#[test]
fn what_is_no_name_is_refused(rt: HostRuntime) -> Result<(), Fail> {
    let cwd = Path::root();
    for (name, want) in [
        (b"".as_slice(), PathNo::Empty),
        (b"a\0\n".as_slice(), PathNo::Nul),
        (b"a\nb".as_slice(), PathNo::Newline),
    ] {
        assert!(rt; Path::read(rt.alloc(), &cwd, name).is_err_and(|e| e == want));
    }
    Ok(())
}

#[test]
fn the_limits_are_those_of_the_result(rt: HostRuntime) -> Result<(), Fail> {
    let cwd = Path::root();
    let long = [b'a'; 1024];
    assert_eq!(rt;
        Path::read(rt.alloc(), &cwd, &long[..1023])?.text().len(),
        1024
    );
    assert!(rt; Path::read(rt.alloc(), &cwd, &long).is_err_and(|e| e == PathNo::TooLong));
    let deep =
        b"/a/a/a/a/a/a/a/a/a/a/a/a/a/a/a/a/a/a/a/a/a/a/a/a/a/a/a/a/a/a/a/a/a/a/a/a/a/a/a/a/a/a/a/a/a/a/a/a/a/a/a/a/a/a/a/a/a/a/a/a/a/a/a/a/a";
    assert_eq!(rt; deep.len(), 130);
    let full = Path::read(rt.alloc(), &cwd, &deep[..128])?;
    assert!(rt; Path::read(rt.alloc(), &cwd, deep).is_err_and(|e| e == PathNo::TooDeep));
    assert!(rt;
        full.child(rt.alloc(), b"b")
            .is_err_and(|e| e == PathNo::TooDeep)
    );
    Ok(())
}

#[test]
fn a_path_has_a_parent_and_children(rt: HostRuntime) -> Result<(), Fail> {
    let p = path(rt.alloc(), b"/x/y")?;
    assert_eq!(rt; p.last(), Some(b"y".as_slice()));
    let above = p.parent(rt.alloc())?.ok_or("no parent")?;
    assert_eq!(rt; above.text(), b"/x".as_slice());
    assert!(rt; above.child(rt.alloc(), b"y")? == p);
    assert!(rt; above < p.copy()?);
    Ok(())
}

#[test]
fn the_root_is_its_own(rt: HostRuntime) -> Result<(), Fail> {
    let root = Path::root();
    assert!(rt; root.parent(rt.alloc())?.is_none());
    assert!(rt; root.last().is_none());
    assert_eq!(rt; root.child(rt.alloc(), b"a")?.text(), b"/a".as_slice());
    assert!(rt; !is_component(b".."));
    assert!(rt; Path::from_text(rt.alloc(), b"/a/")?.is_none());
    Ok(())
}

use em_base::{NoMemory, Text};
use em_host::{Call, Called, Host, HostNo, MemHost};
use std::alloc::Global;
use std::test::Fail;

/// A call on a host.
#[derive(Clone, Copy)]
enum HostCall {
    Take(&'static [u8]),
    Replace(&'static [u8], &'static [u8]),
    Print(&'static [u8]),
}

/// Makes the call, and gives what it took.
fn made(alloc: Global, host: &mut MemHost, act: HostCall) -> Result<Option<Vec<u8>>, HostNo> {
    match act {
        HostCall::Take(name) => host.take(alloc, name),
        HostCall::Replace(name, bytes) => {
            host.replace(alloc, name, bytes)?;
            Ok(None)
        }
        HostCall::Print(bytes) => {
            host.print(bytes)?;
            Ok(None)
        }
    }
}

/// The call as a host notes it.
fn noted(alloc: Global, act: HostCall, ok: bool) -> Result<Called, NoMemory> {
    let call = match act {
        HostCall::Take(name) => Call::Take(Text::from_slice(alloc, name)?),
        HostCall::Replace(name, bytes) => Call::Replace {
            name: Text::from_slice(alloc, name)?,
            bytes: Text::from_slice(alloc, bytes)?,
        },
        HostCall::Print(bytes) => Call::Print(Text::from_slice(alloc, bytes)?),
    };
    Ok(Called { call, ok })
}

/// A host with a file `a`, on which the second and the fourth call fail.
fn host(alloc: Global) -> Result<MemHost, NoMemory> {
    let mut host = MemHost::new(alloc);
    host.put(alloc, b"a", b"1")?;
    host.fail_at(1)?;
    host.fail_at(3)?;
    Ok(host)
}

#[test]
fn a_memory_host_keeps_files_output_and_calls(rt: HostRuntime) -> Result<(), Fail> {
    let mut host = host(rt.alloc())?;
    for (at, (act, ok, taken)) in [
        (HostCall::Replace(b"b", b"2"), true, None),
        (HostCall::Replace(b"a", b"3"), false, None),
        (HostCall::Print(b"x = 1\n"), true, None),
        (HostCall::Print(b"lost"), false, None),
        (HostCall::Take(b"a"), true, Some(b"1".as_slice())),
        (HostCall::Take(b"c"), true, None),
    ]
    .into_iter()
    .enumerate()
    {
        match made(rt.alloc(), &mut host, act) {
            Ok(bytes) => assert!(rt; ok && bytes.as_ref().map(|b| b.as_slice()) == taken),
            Err(e) => assert!(rt; !ok && e == HostNo::Failed),
        }
        let wanted = noted(rt.alloc(), act, ok)?;
        assert!(rt; host.calls().len() == at + 1);
        assert!(rt; host.calls().last() == Some(&wanted));
    }
    assert!(rt; host.file(b"b") == Some(b"2".as_slice()) && host.file(b"c").is_none());
    assert!(rt; host.printed() == b"x = 1\n".as_slice());
    Ok(())
}

use em_base::{Seq, Text};
use em_report::{CauseWord, Report, ReportLine, ReportNo, read, write};
use std::test::Fail;

const WHOLE: &[u8] = b"EMREPORT 1\njob 0 1 - 7 b\njob 1 1 - 10 a 0\nstatus 0\n.\n";

#[test]
fn a_report_is_written_and_read_again(rt: HostRuntime) -> Result<(), Fail> {
    let first = ReportLine {
        job: 0,
        runs: 1,
        cause: CauseWord::Clean,
        fuel: 7,
        target: Text::from_slice(rt.alloc(), b"b")?,
        waits: Seq::new(rt.alloc()),
    };
    let second = ReportLine {
        job: 1,
        runs: 1,
        cause: CauseWord::Clean,
        fuel: 10,
        target: Text::from_slice(rt.alloc(), b"a")?,
        waits: Seq::from_vec(vec![in rt.alloc(); 0]?),
    };
    let report = Report {
        lines: Seq::from_vec(vec![in rt.alloc(); first, second]?),
        status: 0,
    };
    assert!(rt; write(rt.alloc(), &report)?.bytes() == WHOLE);
    assert!(rt; read(rt.alloc(), WHOLE)? == report);
    Ok(())
}

#[test]
fn faults_stand_at_the_first_byte_at_which_no_report_goes_on(rt: HostRuntime) {
    for (text, place) in [
        (b"EMREPORT 2\n".as_slice(), 9),
        (b"EMREPORT 1\njbo".as_slice(), 12),
        (b"EMREPORT 1\njob 4294967296 1 - 7 b\n".as_slice(), 24),
        (b"EMREPORT 1\njob 00 1 - 7 b\n".as_slice(), 16),
        (b"EMREPORT 1\njob 0 3 - 7 b\nstatus 0\n.\n".as_slice(), 17),
        (b"EMREPORT 1\njob 0 2 diffuse 7 b\n".as_slice(), 23),
        (
            b"EMREPORT 1\njob 0 1 - 18446744073709551616 b\n".as_slice(),
            40,
        ),
        (b"EMREPORT 1\njob 0 1 - 7 \n".as_slice(), 23),
        (b"EMREPORT 1\njob 0 1 - 7 b\tc\n".as_slice(), 24),
        (b"EMREPORT 1\njob 0 1 - 7 b x\n".as_slice(), 25),
        (b"EMREPORT 1\nstatus 256\n.\n".as_slice(), 20),
        (b"EMREPORT 1\nstatus 0\n,\n".as_slice(), 20),
        (b"EMREPORT 1\nstatus 0\n.\n ".as_slice(), 22),
        (b"EMREPORT 1\njob 0 1 - 7 b\nsta".as_slice(), 28),
        (b"".as_slice(), 0),
    ] {
        assert!(rt; read(rt.alloc(), text) == Err(ReportNo::Form(place)));
    }
}

// Certificates that are known from outside: written again, and set rank by rank.

use plan_file::read_plan;
use rank_cert::{Cert, CertErr, read_cert, write_cert};
use std::test::Fail;
use sync_topo::{LineId, Size};
use test_makers::{CHAIN, is_printed_as};

/// A to B over L1 and B to C over L2, both nominated where they end.
#[test]
fn written_certificates_are_read_back(rt: HostRuntime) -> Result<(), Fail> {
    let alloc = rt.alloc();
    let plan = read_plan(alloc, CHAIN, Size::Standard)?;
    let rows: [(&[u8], &[u8]); 3] = [
        (
            b"line,rank\nL2>C,1\nL1>B,0\n",
            b"line,rank\nL1>B,0\nL2>C,1\n",
        ),
        (
            b"\"line\",rank\r\n\"L1>B\",7\r\nL2>C,\"7\"",
            b"line,rank\nL1>B,7\nL2>C,7\n",
        ),
        (
            b"line,rank\nL1>B,10\nL2>C,18446744073709551615\n",
            b"line,rank\nL1>B,10\nL2>C,18446744073709551615\n",
        ),
    ];
    for (given, want) in rows {
        let cert = read_cert(alloc, &plan, given)?;
        let written = write_cert(alloc, &plan, &cert)?;
        assert!(&rt; written.bytes() == want);
    }
    Ok(())
}

#[test]
fn ranks_are_set_and_taken_away(rt: HostRuntime) -> Result<(), Fail> {
    let alloc = rt.alloc();
    let plan = read_plan(alloc, CHAIN, Size::Standard)?;
    let mut cert = Cert::new(alloc, &plan)?;
    let line = plan.line_of_name(b"L2>C");
    assert!(&rt; line == Some(LineId(2)));
    if let Some(line) = line {
        assert!(&rt; cert.rank(line) == None);
        cert.set(line, Some(7));
        assert!(&rt; cert.rank(line) == Some(7));
        cert.set(line, None);
        assert!(&rt; cert.rank(line) == None);
    }
    Ok(())
}

#[test]
fn certificate_refusals_are_printed(rt: HostRuntime) -> Result<(), Fail> {
    for (error, text) in [
        (CertErr::Header, "the first record isn't line,rank"),
        (CertErr::Row(7), "row 7: not LINE,RANK"),
        (CertErr::Line(1), "row 1: not a nominated line"),
        (
            CertErr::Twice(20),
            "row 20: the line stands in an earlier row",
        ),
        (CertErr::Missing(LineId(2)), "line 2 has no row"),
    ] {
        assert!(rt; is_printed_as(rt.alloc(), error, text)?);
    }
    Ok(())
}

//! What an element received, in pieces of every size: the frames that it has to send are those of the whole file, which cases/ has.

use super::{FED, WITH_SOURCE, fed};
use node_replay::NodeEnd;
use plan_file::read_plan;
use std::process::Abort;
use std::test::Fail;
use sync_ql::limits::LAST_MILLISECOND;
use sync_text::{NoMemory, Text};
use sync_topo::{Plan, Size};
use test_makers::CHAIN;

/// A line of a file: what stands before its frame, and the octet of the frame's code; "" where it has no
/// frame.
type Line = (&'static str, &'static str);

#[derive(Drop)]
struct Case {
    shows: &'static str,
    plan: &'static [u8],
    until: u64,
    lines: &'static [Line],
}

const CASES: [Case; 6] = [
    Case {
        shows: "an_element_of_a_chain_sends_what_it_hears",
        plan: CHAIN,
        until: 1000,
        lines: &[("10,frame,L1>B,", "02")],
    },
    Case {
        shows: "each_word",
        plan: WITH_SOURCE,
        until: 3000,
        lines: &[
            ("100,frame,L1>B,", "02"),
            ("200,lockout,L1>B,", ""),
            ("300,unlock,L1>B,", ""),
            ("400,forced,S,", ""),
            ("500,clear,B,", ""),
            ("600,level,S,QL-PRC", ""),
            ("700,manual,S,", ""),
            ("800,clear,B,", ""),
            ("900,esmc-off,L2>C,", ""),
            ("1100,esmc-on,L2>C,", ""),
            ("1200,down,L1>A,", ""),
            ("1300,up,L1>A,", ""),
            ("1400,down,L1>B,", ""),
            ("1800,up,L1>B,", ""),
            ("2100,frame,L1>B,", "02"),
            ("2200,clear-wtr,L1>B,", ""),
            ("2300,down,S,", ""),
            ("2301,up,S,", ""),
        ],
    },
    Case {
        shows: "each_command_on_a_line_and_on_a_source",
        plan: WITH_SOURCE,
        until: 2000,
        lines: &[
            ("100,frame,L1>B,", "02"),
            ("200,lockout,S,", ""),
            ("300,lockout,L1>B,", ""),
            ("400,unlock,S,", ""),
            ("500,unlock,L1>B,", ""),
            ("600,forced,S,", ""),
            ("700,forced,L1>B,", ""),
            ("800,clear,B,", ""),
            ("900,level,S,QL-PRC", ""),
            ("910,manual,S,", ""),
            ("920,manual,L1>B,", ""),
            ("930,clear,B,", ""),
            ("940,down,S,", ""),
            ("1300,up,S,", ""),
            ("1400,lockout,L1>B,", ""),
            ("1500,clear-wtr,S,", ""),
        ],
    },
    Case {
        shows: "a_frame_of_no_level_hides_an_earlier_level",
        plan: CHAIN,
        until: 1000,
        lines: &[
            ("10,frame,L1>B,", "02"),
            ("20,frame,L1>B,", "01"),
            ("30,frame,L1>B,", "01"),
            ("30,frame,L1>B,", "04"),
            ("40,frame,L1>B,", "02"),
            ("40,frame,L1>B,", "01"),
        ],
    },
    Case {
        shows: "a_level_is_heard_for_five_seconds_where_its_line_is_up",
        plan: CHAIN,
        until: 5500,
        lines: &[
            ("500,frame,L1>B,", "02"),
            ("600,down,L1>B,", ""),
            ("700,frame,L1>B,", "04"),
            ("701,frame,L1>B,", "04"),
            ("701,up,L1>B,", ""),
            ("701,down,L1>B,", ""),
            ("800,up,L1>B,", ""),
            ("5501,frame,L1>B,", "04"),
        ],
    },
    Case {
        shows: "an_element_that_receives_nothing_sends_its_own_level",
        plan: CHAIN,
        until: 0,
        lines: &[],
    },
];

/// The sizes of pieces.
const SIZES: [usize; 8] = [1, 2, 3, 7, 61, 1000, 4096, 5000];

/// Puts the digits of a frame of this code, sent by the second element.
fn put_frame(text: &mut Text, code: &str) -> Result<(), NoMemory> {
    text.put(b"0180c200000202000000000188090a0019a7000110000000010004")?;
    text.put(code.as_bytes())?;
    for _ in 0..32 {
        text.put(b"00")?;
    }
    Ok(())
}

fn put_lines(file: &mut Text, lines: &[Line]) -> Result<(), NoMemory> {
    for (before, code) in lines {
        file.put(before.as_bytes())?;
        if !code.is_empty() {
            put_frame(file, code)?;
        }
        file.put(b"\n")?;
    }
    Ok(())
}

/// A file that is cut into pieces of one size gives what it gives whole.
fn gives(
    rt: &(impl Abort + AllocGlobal),
    plan: &Plan,
    case: &Case,
    file: &[u8],
    size: usize,
) -> Result<(), Fail> {
    assert!(rt; FED < plan.elements());
    assert!(rt; case.until <= LAST_MILLISECOND);
    let sent = fed(rt.alloc(), plan, file, size, case.until)?;
    let whole = fed(rt.alloc(), plan, file, file.len(), case.until)?;
    assert!(rt; sent.end == NodeEnd::Until);
    assert!(rt; !sent.text.bytes().is_empty());
    assert!(rt; sent.text.bytes() == whole.text.bytes(), "{}", case.shows);
    Ok(())
}

fn in_all_pieces(rt: &(impl Abort + AllocGlobal), case: &Case, file: &[u8]) -> Result<(), Fail> {
    let plan = read_plan(rt.alloc(), case.plan, Size::Standard)?;
    for size in SIZES {
        gives(rt, &plan, case, file, size)?;
    }
    Ok(())
}

#[test]
fn however_files_are_cut_they_give_their_frames(rt: HostRuntime) -> Result<(), Fail> {
    for case in &CASES {
        let mut file = Text::new(rt.alloc());
        put_lines(&mut file, case.lines)?;
        in_all_pieces(&rt, case, file.bytes())?;
    }
    Ok(())
}

/// Empty lines and fifty frames of the same millisecond stand before the one that counts.
#[test]
fn a_file_is_longer_than_its_pieces(rt: HostRuntime) -> Result<(), Fail> {
    let case = &CASES[0];
    let mut file = Text::new(rt.alloc());
    for _ in 0..50 {
        put_lines(&mut file, &[("10,frame,L1>B,", "04"), ("", ""), ("\r", "")])?;
    }
    put_lines(&mut file, case.lines)?;
    in_all_pieces(&rt, case, file.bytes())
}

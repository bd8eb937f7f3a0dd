//! Lines that are refused, each by the piece that brings its end.

use super::{FED, WITH_SOURCE, fed, last_piece_is_refused};
use esmc_frame::FrameErr;
use node_file::NodeErr;
use plan_file::read_plan;
use std::alloc::Global;
use std::process::Abort;
use std::test::Fail;
use sync_text::{NoAnswer, NoMemory, Text};
use sync_topo::{Plan, Size};
use test_makers::CHAIN;

/// A file, the size of its last piece, which brings the end of a line that breaks a rule, and the refusal.
type Refused = (&'static str, usize, NodeErr);

const REFUSED: [Refused; 23] = [
    ("10,down,L2>C,\n10,up,L2>C\n", 1, NodeErr::Fields(2)),
    (
        "10,down,L2>C,\n\r\n\n20,up,L2>C,,\r\n",
        2,
        NodeErr::Fields(4),
    ),
    ("\n \n", 1, NodeErr::Fields(2)),
    ("\nx,down,L2>C,\n", 1, NodeErr::Time(2)),
    ("05,down,L2>C,\n10,up,L2>C,\n", 13, NodeErr::Time(1)),
    ("86400001,down,L2>C,\n", 1, NodeErr::Time(1)),
    ("10,down,L2>C,\n5,up,L2>C,\n", 1, NodeErr::Order(2)),
    ("10,down,L2>C,\n\n5,jump,X,1\n", 1, NodeErr::Order(3)),
    // What comes after the end is tested too.
    (
        "86400000,down,L2>C,\n86399999,up,L2>C,\n",
        1,
        NodeErr::Order(2),
    ),
    ("10,down,L2>C,\n10,jump,L2>C,\nx", 2, NodeErr::What(2)),
    ("10,down,L2>C,\n10,Up,X,\n", 1, NodeErr::What(2)),
    ("10,down,L2>C,\n10,up,L2,\n", 1, NodeErr::Target(2)),
    ("10,frame,L1>A,0g\n", 1, NodeErr::Target(1)),
    ("10,clear,L1>B,\n", 1, NodeErr::Target(1)),
    ("10,level,L1>B,QL-PRC\n", 1, NodeErr::Target(1)),
    ("10,frame,S,0g\n", 1, NodeErr::Target(1)),
    ("10,down,L2>C,\n10,up,L2>C,x\n", 1, NodeErr::Value(2)),
    ("10,level,S,QL-ST2\n", 1, NodeErr::Value(1)),
    ("\r\n\n10,frame,L1>B,0g\r\n", 2, NodeErr::Value(3)),
    ("10,frame,L1>B,\n", 1, NodeErr::Frame(1, FrameErr::Length)),
    (
        "10,up,L1>B,\n10,frame,L1>B,0180\n",
        1,
        NodeErr::Frame(2, FrameErr::Length),
    ),
    // The last octet is cut off, and the version isn't 1.
    (
        "10,up,L1>B,\n20,frame,L1>B,0180c200000202000000000188090a0019a70001100000000100040200000000000000000000000000000000000000000000000000000000000000\n",
        1,
        NodeErr::Frame(2, FrameErr::Length),
    ),
    (
        "10,up,L1>B,\n20,frame,L1>B,0180c200000202000000000188090a0019a7000100000000010004020000000000000000000000000000000000000000000000000000000000000000\n",
        1,
        NodeErr::Frame(2, FrameErr::Version),
    ),
];

/// The file is refused too where it ends without its last piece.
fn front_is_refused(
    rt: &(impl Abort + AllocGlobal),
    plan: &Plan,
    file: &[u8],
    last: usize,
    want: NodeErr,
) {
    assert!(rt; FED < plan.elements());
    let (front, _) = file.split_at(file.len().saturating_sub(last));
    for size in [1, 2, file.len()] {
        match fed(rt.alloc(), plan, front, size, 1000) {
            Ok(_) => assert!(rt; false),
            Err(error) => assert!(rt; error == NoAnswer::Refused(want)),
        }
    }
}

fn are_refused(
    rt: &(impl Abort + AllocGlobal),
    plan: &Plan,
    files: &[Refused],
) -> Result<(), Fail> {
    for (file, last, want) in files {
        last_piece_is_refused(rt, plan, file.as_bytes(), *last, *want)?;
        front_is_refused(rt, plan, file.as_bytes(), *last, *want);
    }
    Ok(())
}

#[test]
fn a_refusal_comes_with_the_end_of_its_line(rt: HostRuntime) -> Result<(), Fail> {
    let plan = read_plan(rt.alloc(), WITH_SOURCE, Size::Standard)?;
    are_refused(&rt, &plan, &REFUSED)
}

/// A line of so many bytes, the frame in which is longer than a frame may be.
fn line_of(alloc: Global, bytes: usize) -> Result<Text, NoMemory> {
    let mut line = Text::new(alloc);
    line.put(b"10,frame,L1>B,")?;
    for _ in 14..bytes {
        line.put(b"0")?;
    }
    Ok(line)
}

/// A line of 4,096 bytes, a carriage return among them, is read, and its frame is refused at its end. The
/// next byte is one too many, whether a line feed follows or not.
#[test]
fn a_line_has_4096_bytes(rt: HostRuntime) -> Result<(), Fail> {
    let plan = read_plan(rt.alloc(), CHAIN, Size::Standard)?;
    let cases: [(usize, &[u8], NodeErr); 5] = [
        (4096, b"\n", NodeErr::Frame(1, FrameErr::Length)),
        (4096, b"0", NodeErr::Fields(1)),
        (4096, b"\r", NodeErr::Fields(1)),
        (4095, b"00\n", NodeErr::Fields(1)),
        // Its digits are an odd number.
        (4095, b"\r\n", NodeErr::Value(1)),
    ];
    for (bytes, last, want) in cases {
        let mut line = line_of(rt.alloc(), bytes)?;
        line.put(last)?;
        last_piece_is_refused(&rt, &plan, line.bytes(), last.len(), want)?;
    }
    Ok(())
}

// Runs over files that fail and an output that fails or ends early; all other runs are in cases/.

use std::alloc::{AllocError, Global};
use std::process::Abort;
use std::test::Fail;
use std::thread::Threads;
use sync_edge::{MemFile, MemFolder, MemSink};
use sync_sweep::FreeGate;
use sync_text::{NoMemory, Rows, Text};
use sync_top::{Status, run};
use test_makers::{CHAIN, PAIR, SOURCED_CHAIN, numbers};

const RISING: &[u8] = b"line,rank\nL1>B,0\nL2>C,1\n";

const NO_EVENTS: &[u8] = b"at,what,target,value\n";

/// Where the outside fails, and how much of it there is.
#[derive(Clone, Copy)]
struct Outside {
    folder_fails: &'static [u32],
    room: usize,
    piece: usize,
    sink_fails: &'static [u32],
}

const CALM: Outside = Outside {
    folder_fails: &[],
    room: 400,
    piece: 400,
    sink_fails: &[],
};

fn file(alloc: Global, name: &[u8], bytes: &[u8]) -> Result<MemFile, NoMemory> {
    Ok(MemFile {
        name: Text::from_bytes(alloc, name)?,
        bytes: Text::from_bytes(alloc, bytes)?,
    })
}

fn words(alloc: Global, words: &[&str]) -> Result<Vec<String>, AllocError> {
    let mut all = Vec::new(alloc);
    for word in words {
        all.push(String::from_str(alloc, word)?)?;
    }
    Ok(all)
}

/// Runs the words over the files `plan` and `cert`, and gives the status and what was written.
fn answer(
    rt: &(impl AllocGlobal + Threads + Sync),
    line: &[&str],
    files: (&[u8], &[u8]),
    outside: Outside,
) -> Result<(Status, Text), Fail> {
    let alloc = rt.alloc();
    let mut kept = Rows::new(alloc);
    kept.push(file(alloc, b"plan", files.0)?)?;
    kept.push(file(alloc, b"cert", files.1)?)?;
    let mut folder = MemFolder::new(kept, 65_536, numbers(alloc, outside.folder_fails)?);
    let fails = numbers(alloc, outside.sink_fails)?;
    let mut sink = MemSink::new(alloc, outside.room, outside.piece.max(1), fails)?;
    let line = words(alloc, line)?;
    let status = run(
        rt,
        alloc,
        line.as_slice(),
        &mut folder,
        &mut sink,
        &FreeGate,
    );
    Ok((status, Text::from_bytes(alloc, sink.bytes())?))
}

/// Runs the words over the files, and compares the status and what was written.
fn answers(
    rt: &(impl Abort + AllocGlobal + Threads + Sync),
    line: &[&str],
    files: (&[u8], &[u8]),
    outside: Outside,
    want: (Status, &[u8]),
) -> Result<(), Fail> {
    let (status, text) = answer(rt, line, files, outside)?;
    assert!(rt; (status, text.bytes()) == want);
    Ok(())
}

#[test]
fn faults_are_told(rt: HostRuntime) -> Result<(), Fail> {
    let check: &[&str] = &["check", "plan", "cert"];
    let text: &[u8] = b"accepted\n";
    let read: (Status, &[u8]) = (Status::ReadFault, b"read fault\n");
    // Each file is started, read, and read once more at its end.
    let folders: [(&[u32], (Status, &[u8])); 8] = [
        (&[1], read),
        (&[2], read),
        (&[3], read),
        (&[4], read),
        (&[5], read),
        (&[6], read),
        (&[7], (Status::Done, text)),
        (&[9, 2], read),
    ];
    for (folder_fails, want) in folders {
        let outside = Outside {
            folder_fails,
            ..CALM
        };
        answers(
            &rt,
            &["check", "plan", "cert"],
            (CHAIN, RISING),
            outside,
            want,
        )?;
    }
    let sinks: [(&[u32], (Status, &[u8])); 10] = [
        (&[1], (Status::WriteFault, b"")),
        (&[2], (Status::WriteFault, b"a")),
        (&[3], (Status::WriteFault, b"ac")),
        (&[4], (Status::WriteFault, b"acc")),
        (&[5], (Status::WriteFault, b"acce")),
        (&[6], (Status::WriteFault, b"accep")),
        (&[7], (Status::WriteFault, b"accept")),
        (&[8], (Status::WriteFault, b"accepte")),
        (&[9], (Status::WriteFault, b"accepted")),
        (&[10], (Status::Done, text)),
    ];
    for (sink_fails, want) in sinks {
        let outside = Outside {
            piece: 1,
            sink_fails,
            ..CALM
        };
        answers(&rt, check, (CHAIN, RISING), outside, want)?;
    }
    let outside = Outside { room: 5, ..CALM };
    answers(
        &rt,
        &["check", "plan", "cert"],
        (CHAIN, RISING),
        outside,
        (Status::WriteFault, b"accep"),
    )
}

#[test]
fn a_front_of_the_report_is_written_where_the_output_fails(rt: HostRuntime) -> Result<(), Fail> {
    let outside = Outside {
        piece: 16,
        sink_fails: &[2],
        ..CALM
    };
    let want: (Status, &[u8]) = (Status::WriteFault, b"changes\n0,A,auto");
    let line: &[&str] = &["sim", "plan", "cert", "100"];
    answers(&rt, line, (SOURCED_CHAIN, NO_EVENTS), outside, want)
}

/// Runs a swinging pair to the last millisecond there is over an output of so much room, and gives
/// the status and what was written.
fn swings(rt: &(impl AllocGlobal + Threads + Sync), room: usize) -> Result<(Status, Text), Fail> {
    let line: &[&str] = &["sim", "plan", "cert", "86400000"];
    let outside = Outside {
        room,
        piece: 1000,
        ..CALM
    };
    answer(rt, line, (PAIR, NO_EVENTS), outside)
}

#[test]
fn a_front_of_a_long_report_is_written_where_the_room_ends(rt: HostRuntime) -> Result<(), Fail> {
    let (stopped, whole) = swings(&rt, 10_000_000)?;
    let (fault, front) = swings(&rt, 4096)?;
    assert!(&rt; (stopped, fault) == (Status::Stopped, Status::WriteFault));
    assert!(&rt; front.bytes().len() == 4096);
    assert!(&rt; whole.bytes().starts_with(front.bytes()));
    Ok(())
}

use std::alloc::Global;
use std::fmt::Display;
use std::process::Abort;
use std::test::Fail;
use std::{fs, io};
use sync_edge::{
    Failed, Folder, MemFile, MemFolder, MemSink, ReadErr, RealFolder, RealSink, Sink, WriteFailed,
    read_all, write_all,
};
use sync_text::{NoMemory, Rows, Text};
use test_makers::{is_printed_as, numbers};

/// What `read_all` gave: the bytes, or the name of the error.
fn answer(read: &Result<Text, ReadErr>) -> &[u8] {
    match read {
        Ok(text) => text.bytes(),
        Err(ReadErr::Failed) => b"failed",
        Err(ReadErr::TooLong) => b"too long",
        Err(ReadErr::NoMemory) => b"no memory",
    }
}

#[derive(Clone, Copy)]
struct ReadRow {
    fails: &'static [u32],
    name: &'static str,
    limit: usize,
    want: &'static [u8],
}

/// Reads from a folder with the file `plan` of nine bytes, of which one read gives at most four.
///
/// One call starts the file, three read its bytes, and one finds its end.
fn reads(rt: &(impl Abort + AllocGlobal), row: ReadRow) -> Result<(), Fail> {
    let alloc = rt.alloc();
    let mut files = Rows::new(alloc);
    files.push(MemFile {
        name: Text::from_bytes(alloc, b"plan")?,
        bytes: Text::from_bytes(alloc, b"version=2")?,
    })?;
    let mut folder = MemFolder::new(files, 4, numbers(alloc, row.fails)?);
    let read = read_all(alloc, &mut folder, row.name, row.limit);
    assert!(rt; answer(&read) == row.want);
    Ok(())
}

#[test]
fn reads_fail_only_where_they_are_told_to(rt: HostRuntime) -> Result<(), Fail> {
    let rows = [
        ReadRow {
            fails: &[],
            name: "plan",
            limit: 9,
            want: b"version=2",
        },
        ReadRow {
            fails: &[],
            name: "plan",
            limit: 8,
            want: b"too long",
        },
        ReadRow {
            fails: &[],
            name: "cert",
            limit: 9,
            want: b"failed",
        },
        ReadRow {
            fails: &[1],
            name: "plan",
            limit: 9,
            want: b"failed",
        },
        ReadRow {
            fails: &[4],
            name: "plan",
            limit: 9,
            want: b"failed",
        },
        ReadRow {
            fails: &[5],
            name: "plan",
            limit: 9,
            want: b"failed",
        },
        ReadRow {
            fails: &[6],
            name: "plan",
            limit: 9,
            want: b"version=2",
        },
    ];
    for row in rows {
        reads(&rt, row)?;
    }
    Ok(())
}

#[derive(Clone, Copy)]
struct WriteRow {
    room: usize,
    piece: usize,
    fails: &'static [u32],
    want: &'static [u8],
}

/// Writes nine bytes to a sink; the call fails exactly where not all of them are there.
fn writes(rt: &(impl Abort + AllocGlobal), row: WriteRow) -> Result<(), Fail> {
    assert!(rt; row.piece >= 1);
    let alloc = rt.alloc();
    let mut sink = MemSink::new(alloc, row.room, row.piece, numbers(alloc, row.fails)?)?;
    let written = write_all(&mut sink, b"accepted\n");
    assert!(rt; sink.bytes() == row.want);
    assert!(rt; written.is_ok() == (row.want.len() == 9));
    Ok(())
}

#[test]
fn writes_stop_at_the_first_fault(rt: HostRuntime) -> Result<(), Fail> {
    let rows = [
        WriteRow {
            room: 9,
            piece: 9,
            fails: &[2],
            want: b"accepted\n",
        },
        WriteRow {
            room: 20,
            piece: 4,
            fails: &[4],
            want: b"accepted\n",
        },
        WriteRow {
            room: 20,
            piece: 4,
            fails: &[3],
            want: b"accepted",
        },
        WriteRow {
            room: 9,
            piece: 1,
            fails: &[1],
            want: b"",
        },
        WriteRow {
            room: 9,
            piece: 1,
            fails: &[9],
            want: b"accepted",
        },
        WriteRow {
            room: 5,
            piece: 9,
            fails: &[],
            want: b"accep",
        },
    ];
    for row in rows {
        writes(&rt, row)?;
    }
    Ok(())
}

#[test]
fn a_real_file_is_read_and_an_absent_one_is_a_fault(rt: HostRuntime) -> Result<(), Fail> {
    let name = "sync_edge_real_file";
    fs::write(&rt, name, "one file\n")?;
    let mut folder = RealFolder::new(&rt);
    let read = read_all(rt.alloc(), &mut folder, name, 100);
    let started = folder.start(name);
    fs::remove_file(&rt, name)?;
    assert!(rt; answer(&read) == b"one file\n".as_slice());
    assert!(rt; started.is_ok());
    let absent = read_all(rt.alloc(), &mut folder, name, 100);
    assert!(rt; answer(&absent) == b"failed".as_slice());
    let mut piece = [0; 4];
    // After a start that failed there is nothing to read.
    assert!(rt; folder.read(&mut piece).ok() == Some(0));
    Ok(())
}

#[test]
fn a_folder_in_place_of_a_file_is_a_fault(rt: HostRuntime) {
    let mut folder = RealFolder::new(&rt);
    let read = read_all(rt.alloc(), &mut folder, ".", 100);
    assert!(rt; answer(&read) == b"failed".as_slice());
}

/// An output of which one write takes at most so many bytes, or fails.
#[derive(Drop)]
struct Narrow {
    most: Option<usize>,
}

impl Print for Narrow {
    fn print<D: Display + Drop>(&self, _value: D) -> io::Result<()> {
        Err(io::Error::from(io::ErrorKind::Unsupported))
    }

    fn println<D: Display + Drop>(&self, _value: D) -> io::Result<()> {
        Err(io::Error::from(io::ErrorKind::Unsupported))
    }

    fn write_all(&self, _bytes: &[u8]) -> io::Result<()> {
        Err(io::Error::from(io::ErrorKind::Unsupported))
    }

    fn write_some(&self, bytes: &[u8]) -> io::Result<usize> {
        match self.most {
            Some(most) => Ok(most.min(bytes.len())),
            None => Err(io::Error::from(io::ErrorKind::BrokenPipe)),
        }
    }
}

#[test]
fn a_write_is_as_long_as_the_output_took(rt: HostRuntime) {
    for (most, want) in [
        (Some(4), Some(4)),
        (Some(8), Some(8)),
        (Some(20), Some(9)),
        (Some(0), None),
        (None, None),
    ] {
        let out = Narrow { most };
        let written = RealSink::new(&out).write(b"accepted\n");
        assert!(rt; written.ok() == want);
    }
}

#[test]
fn errors_are_printed_in_words(rt: HostRuntime) -> Result<(), Fail> {
    let alloc = rt.alloc();
    assert!(rt; is_printed_as(alloc, Failed, "the outside failed")?);
    assert!(rt; is_printed_as(alloc, ReadErr::Failed, "read fault")?);
    assert!(rt; is_printed_as(alloc, ReadErr::TooLong, "too long")?);
    assert!(rt; is_printed_as(alloc, ReadErr::NoMemory, "out of memory")?);
    assert!(rt; is_printed_as(alloc, WriteFailed, "write fault")?);
    assert!(rt; is_printed_as(alloc, NoMemory, "out of memory")?);
    Ok(())
}

ghost use Rattle.std.specs.Prelude.{◌≡◌, ◌≢◌, ◌+◌, ◌<◌, ◌≤◌, length, IsTrue, IfOk, OnOk, OnErr, IsErrOf};
ghost use Rattle.std.specs.Io.KnownBytes.{Appends};
ghost use Rattle.sync_edge.specs.Contents.{HasName, Holds, HoldsMoreThan, KeepsFolder};
ghost use Rattle.sync_edge.specs.Faults.{HasCause};
ghost use Rattle.sync_edge.specs.Transfers.{AppendsFront, AreRead, IsTriedOnce, ReadHasCause, piece_size};
ghost use Rattle.sync_edge.specs.private.Transfers.{AreTaken, IsLeft, IsMoreLeftThan};

use crate::errors::{ReadErr, WriteFailed};
use crate::outside::{Folder, Sink};
use std::alloc::Global;
use sync_text::Text;

/// How many bytes one read asks for.
const PIECE: usize = 65_536;

/// The whole file of that name, if it has at most `limit` bytes.
///
/// A longer file is refused as soon as more than `limit` bytes of it were read. The file is started
/// once, so that it may be one that can be read only once.
/// This project's own.
pub fn read_all<F: Folder>(
    alloc: Global,
    folder: &mut F,
    name: &str,
    limit: usize,
) -> Result<Text, ReadErr>
    ensures keeps { KeepsFolder F.contents F.steady F.faults folder.old folder.new }

    ensures ok { IfOk result (Holds (F.contents folder.old) name.now) }
    ensures within { IfOk result (λ text. length text ≤ limit) }
    ensures too_long { IsErrOf result ReadErr.TooLong → HoldsMoreThan limit (F.contents folder.old) name.now }

    // Of a longer file at most one piece is read past the limit, and no file is started twice.
    ensures stops { IsErrOf result ReadErr.TooLong
        → AreRead (limit + piece_size) (F.contents folder.old) name.now (F.left folder.new) }
    ensures once { IsTriedOnce (F.tries folder.old) (F.tries folder.new) result }

    // A fault has a cause, and a steady folder that has the name gives none.
    ensures cause { ReadHasCause (F.faults folder.old) (F.faults folder.new) result }
    ensures sure { IsTrue (F.steady folder.old) → HasName (F.contents folder.old) name.now
        → result ≢ Err ReadErr.Failed }
{
    let Ok(mut piece) = vec![in alloc; 0; PIECE] else {
        return Err(ReadErr::NoMemory);
    };
    match folder.start(name) {
        Ok(()) => read_rest(alloc, folder, limit, piece.as_mut_slice()),
        Err(_) => Err(ReadErr::Failed),
    }
}

/// All that is left of the started file, if it has at most `limit` bytes.
fn read_rest<F: Folder>(
    alloc: Global,
    folder: &mut F,
    limit: usize,
    piece: &mut [u8],
) -> Result<Text, ReadErr>
    requires { length piece.old ≡ piece_size }
    ensures keeps { KeepsFolder F.contents F.steady F.faults folder.old folder.new }

    ensures ok { IfOk result (IsLeft (F.left folder.old)) }
    ensures within { IfOk result (λ text. length text ≤ limit) }
    ensures too_long { IsErrOf result ReadErr.TooLong → IsMoreLeftThan limit (F.left folder.old) }
    ensures stops { IsErrOf result ReadErr.TooLong
        → AreTaken (limit + piece_size) (F.left folder.old) (F.left folder.new) }
    ensures tried { F.tries folder.new ≡ F.tries folder.old }

    ensures cause { ReadHasCause (F.faults folder.old) (F.faults folder.new) result }
    ensures sure { IsTrue (F.steady folder.old) → result ≢ Err ReadErr.Failed }
{
    let mut text = Text::new(alloc);
    while text.bytes().len() <= limit {
        let Ok(count) = folder.read(piece) else {
            return Err(ReadErr::Failed);
        };
        if count == 0 {
            return Ok(text);
        }
        let Ok(()) = text.put(&piece[..count]) else {
            return Err(ReadErr::NoMemory);
        };
    }
    Err(ReadErr::TooLong)
}

/// Writes all the bytes.
///
/// It stops at the first write that fails; what was written is then a front of the bytes. It takes
/// no memory.
/// This project's own.
pub fn write_all<K: Sink>(sink: &mut K, bytes: &[u8]) -> Result<(), WriteFailed>
    ensures ok { OnOk result (Appends (K.written sink.old) (K.written sink.new) bytes.now) }
    ensures front { OnErr result (AppendsFront (K.written sink.old) (K.written sink.new) bytes.now) }
    ensures cause { HasCause (K.faults sink.old) (K.faults sink.new) result }
{
    let mut done = 0;
    while done < bytes.len() {
        let (_, rest) = bytes.split_at(done);
        match sink.write(rest) {
            Ok(count) => done += count,
            Err(_) => return Err(WriteFailed),
        }
    }
    Ok(())
}

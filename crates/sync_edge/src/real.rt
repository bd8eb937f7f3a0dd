ghost use Rattle.std.specs.Prelude.{◌≡◌, [], Some, None, false};

use crate::errors::Failed;
use crate::outside::{Folder, Sink};
use std::io::{Read, Write};
use std::marker::Model;
use std::rt::Files;
use std::{fs, io};

/// The files of the system. It tells no content, and is never steady.
///
/// A name is a path, and each error of the system is a fault. Contracts see what the system tells of
/// the bytes left of the started file, the count of faults, and how often a start was tried.
/// This project's own.
#[derive(Drop)]
pub struct RealFolder<'a, R: Files> {
    rt: &'a R,
    file: Option<R::File>,
    faults: u64,
    tries: u64,
}

impl<'a, R: Files> Model for RealFolder<'a, R> {
    ghost use Rattle.sync_edge.specs.Real.{SystemFolder, left_of_file};

    ghost Value = { SystemFolder };

    ghost view = { λ folder. record { left = left_of_file R.File.remaining folder.file; faults = folder.faults; tries = folder.tries } };
}

impl<'a, R: Files> RealFolder<'a, R> {
    /// The files that `rt` gives. No file is started. It takes no memory.
    pub fn new(rt: &'a R) -> RealFolder<'a, R>
        ensures { result ≡ record { left = Some []; faults = 0; tries = 0 } }
    {
        RealFolder {
            rt,
            file: None,
            faults: 0,
            tries: 0,
        }
    }
}

impl<R: Files> Folder for RealFolder<'_, R> {
    ghost contents = { λ _. None };

    ghost left = { λ folder. folder.left };

    ghost steady = { λ _. false };

    ghost faults = { λ folder. folder.faults };

    ghost tries = { λ folder. folder.tries };

    fn start(&mut self, name: &str) -> Result<(), Failed> {
        self.tries = self.tries.saturating_add(1);
        match fs::open(self.rt, name) {
            Ok(file) => {
                self.file = Some(file);
                Ok(())
            }
            Err(_) => {
                self.file = None;
                self.faults = self.faults.saturating_add(1);
                Err(Failed)
            }
        }
    }

    fn read(&mut self, buf: &mut [u8]) -> Result<usize, Failed> {
        let Some(file) = &mut self.file else {
            return Ok(0);
        };
        match file.read(buf) {
            Ok(count) => Ok(count),
            Err(_) => {
                self.faults = self.faults.saturating_add(1);
                Err(Failed)
            }
        }
    }
}

/// The standard output of the system. It tells no content.
///
/// What was written is flushed at once. A write that takes none of some bytes is a fault, and so is a
/// flush that fails, though the bytes may be out. Contracts see the count of faults.
/// This project's own.
#[derive(Drop)]
pub struct RealSink<'a, R: Print> {
    rt: &'a R,
    faults: u64,
}

impl<'a, R: Print> Model for RealSink<'a, R> {
    ghost use Rattle.std.specs.Prelude.{ℕ};

    ghost Value = { ℕ };

    ghost view = { λ sink. sink.faults };
}

impl<'a, R: Print> RealSink<'a, R> {
    /// The standard output that `rt` gives. It takes no memory.
    pub fn new(rt: &'a R) -> RealSink<'a, R>
        ensures { result ≡ 0 }
    {
        RealSink { rt, faults: 0 }
    }
}

impl<R: Print> Sink for RealSink<'_, R> {
    ghost written = { λ _. None };

    ghost faults = { λ faults. faults };

    fn write(&mut self, bytes: &[u8]) -> Result<usize, Failed> {
        if bytes.is_empty() {
            return Ok(0);
        }
        let mut out = io::writer(self.rt);
        match out.write(bytes) {
            Ok(count) if 0 < count && out.flush().is_ok() => Ok(count),
            _ => {
                self.faults = self.faults.saturating_add(1);
                Err(Failed)
            }
        }
    }
}

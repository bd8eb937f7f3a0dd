//! The program: the words of the command line, the files of the system and standard output go to
//! `run`, and its status is the exit status.
#![tactic(auto)]

use std::alloc::AllocError;
use std::process::ExitCode;
use std::rt::Env;
use std::{env, io};
use sync_edge::{RealFolder, RealSink};
use sync_sweep::FreeGate;
use sync_top::{Status, run};

fn main(rt: HostRuntime) -> ExitCode {
    let status = match words(&rt) {
        Ok(words) => run(
            &rt,
            rt.alloc(),
            words.as_slice(),
            &mut RealFolder::new(&rt),
            &mut RealSink::new(&rt),
            &FreeGate,
        ),
        Err(_) => Status::NoMemory,
    };
    ExitCode::from(status.number())
}

/// The words after the program's name; none where the environment gives none as text.
fn words<R: Env + AllocGlobal>(rt: &R) -> Result<Vec<String>, AllocError> {
    let mut words = Vec::new(rt.alloc());
    match env::args(rt) {
        Ok(args) => {
            for word in args.skip(1) {
                words.push(word)?;
            }
        }
        Err(error) if error.kind() == io::ErrorKind::OutOfMemory => return Err(AllocError),
        Err(_) => {}
    }
    Ok(words)
}

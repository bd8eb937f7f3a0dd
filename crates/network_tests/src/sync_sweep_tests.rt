//! What no run of the program shows of a sweep: that its chunks run at once.

ghost use Rattle.std.specs.Prelude.{◌<◌};

use plan_gen::generate;
use std::process::Abort;
use std::sync::atomic::AtomicBool;
use std::sync::atomic::Ordering::SeqCst;
use std::test::Fail;
use std::thread::Threads;
use sync_sweep::{Gate, sweep};
use sync_topo::Plan;

/// A gate for six chunks: each that enters waits, for a while, until another has entered.
#[derive(Drop)]
struct Meeting {
    entered: [AtomicBool; 6],
    missed: AtomicBool,
}

impl Meeting {
    fn new() -> Meeting {
        Meeting {
            entered: [
                AtomicBool::new(false),
                AtomicBool::new(false),
                AtomicBool::new(false),
                AtomicBool::new(false),
                AtomicBool::new(false),
                AtomicBool::new(false),
            ],
            missed: AtomicBool::new(false),
        }
    }

    // Whether a chunk entered.
    fn has(&self, chunk: u32) -> bool
        requires { chunk < 6 }
    {
        self.entered[chunk as usize].load(SeqCst)
    }

    // Whether another chunk was seen to enter.
    fn meets_another(&self, chunk: u32) -> bool
        requires { chunk < 6 }
    {
        for look in 0..20_000_000u32 {
            if self.has((chunk + 1 + look % 5) % 6) {
                return true;
            }
        }
        false
    }

    // Whether all chunks entered, and each met another.
    fn all_met(&self) -> bool {
        for chunk in 0..6u32 {
            if !self.has(chunk) {
                return false;
            }
        }
        !self.missed.load(SeqCst)
    }
}

impl Gate for Meeting {
    fn enter(&self, chunk: u32) {
        if chunk >= 6 {
            self.missed.store(true, SeqCst);
            return;
        }
        self.entered[chunk as usize].store(true, SeqCst);
        if !self.meets_another(chunk) {
            self.missed.store(true, SeqCst);
        }
    }
}

fn sweep_at_once(
    rt: &(impl Abort + AllocGlobal + Threads + Sync),
    plan: &Plan,
    meeting: &Meeting,
) -> Result<(), Fail> {
    let rows = sweep(rt, rt.alloc(), plan, 1000, 2000, meeting)?;
    assert!(rt; rows.as_slice().len() == 17);
    Ok(())
}

#[test]
fn chunks_run_at_once(rt: HostRuntime) -> Result<(), Fail> {
    let plan = generate(rt.alloc(), 10)?;
    let meeting = Meeting::new();
    sweep_at_once(&rt, &plan, &meeting)?;
    assert!(rt; meeting.all_met());
    Ok(())
}

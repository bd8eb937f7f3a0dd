//! The text of the bounds of a plan that agrees.

ghost use Rattle.std.specs.Prelude.{◌≡◌, IfOk};
ghost use Rattle.plan_texts.specs.Bounds.{agreed_text};

use std::alloc::Global;
use sync_text::{NoMemory, Text};

/// That a plan agrees, its bound, and its bound after failures, in milliseconds.
///
/// This project's own.
pub fn agreed_text(alloc: Global, bound: u64, failures: u64) -> Result<Text, NoMemory>
    ensures { IfOk result (λ text. text ≡ agreed_text bound failures) }
{
    let mut text = Text::new(alloc);
    text.put(b"agreed\nbound ")?;
    text.put_number(bound)?;
    text.put(b"\nfailures ")?;
    text.put_number(failures)?;
    text.put(b"\n")?;
    Ok(text)
}

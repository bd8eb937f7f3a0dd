ghost use Rattle.std.specs.Prelude.{◌≡◌, ◌++◌, codes, IfOk, OnOk};
ghost use Rattle.std.specs.Fmt.{decimal};
ghost use Rattle.plan_texts.specs.Lines.{text_line};
ghost use Rattle.sync_top.specs.Reading.{numbered_refusal, spaced};

use crate::status::Status;
use std::alloc::Global;
use sync_text::{NoMemory, Text};

/// What the program writes, and the status that it ends with.
#[derive(Debug, Drop)]
pub(crate) struct Reply {
    pub(crate) status: Status,
    pub(crate) text: Text,
}

/// What ends the work before its last step.
#[derive(Debug, Drop)]
pub(crate) enum Stop {
    /// The reply is known already.
    Ended(Reply),
    /// Out of memory.
    NoMemory,
}

impl From<NoMemory> for Stop {
    ghost use Rattle.std.specs.Prelude.{◌≡◌};
    ghost use Rattle.sync_top.specs.declared.reply.Stop.TheVariants as stop;

    ghost from_gives = { λ _ e. e ≡ stop.NoMemory };

    fn from(_: NoMemory) -> Stop {
        Stop::NoMemory
    }
}

/// The beginning of the line on a refusal: what is refused, and the refusal's number.
pub(crate) fn refusal(alloc: Global, what: &[u8], number: u8) -> Result<Text, NoMemory>
    ensures { IfOk result (λ text. text ≡ what.now ++ decimal number) }
{
    let mut text = Text::new(alloc);
    text.put(what)?;
    text.put_number(u64::from(number))?;
    Ok(text)
}

/// The line on a refusal by numbers alone: its own, that of the row or line, and that of what is wrong
/// in it.
pub(crate) fn numbered_refusal(
    alloc: Global,
    what: &[u8],
    number: u8,
    row: Option<u64>,
    part: Option<u8>,
) -> Result<Text, NoMemory>
    ensures { IfOk result (λ text. text ≡ text_line (numbered_refusal what.now number row part)) }
{
    let mut text = refusal(alloc, what, number)?;
    put_spaced(&mut text, row)?;
    put_spaced(&mut text, part.map(u64::from))?;
    text.put(b"\n")?;
    Ok(text)
}

/// Puts a number behind a space, where there is one.
fn put_spaced(text: &mut Text, number: Option<u64>) -> Result<(), NoMemory>
    ensures { OnOk result (text.new ≡ text.old ++ spaced number) }
{
    match number {
        Some(number) => put_number(text, number),
        None => Ok(()),
    }
}

/// Puts a number behind a space.
pub(crate) fn put_number(text: &mut Text, number: u64) -> Result<(), NoMemory>
    ensures { OnOk result (text.new ≡ text.old ++ codes " " ++ decimal number) }
{
    text.put(b" ")?;
    text.put_number(number)
}

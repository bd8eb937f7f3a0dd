//! What the rows of a millisecond say last of one input or one line.

ghost use Rattle.std.specs.Prelude.{◌≡◌, unwrap_or};
ghost use Rattle.std.specs.Option.{option_or};
ghost use Rattle.net_rules.specs.Signals.{is_of_part, says_up, says_esmc, says_level, last_word};
ghost use Rattle.node_file.specs.NodeRow.{events_in, said_on, frames_on};
ghost use Rattle.node_rules.specs.Replay.{last_of};
ghost use Rattle.node_replay.specs.private.Keeping.{row_says};

use node_file::{NodeRow, NodeWord};
use sync_ql::Level;
use sync_topo::{InputId, LineId, Part, What};

/// Whether an input is up after some rows.
pub(crate) fn up_after(input: InputId, up: bool, here: &[NodeRow]) -> bool
    ensures { result ≡ unwrap_or (last_word (says_up input) (events_in here.now)) up }
{
    let mut is_up = up;
    for row in here {
        is_up = up_by(input, is_up, *row);
    }
    is_up
}

/// Whether an input is up after a row.
fn up_by(input: InputId, up: bool, row: NodeRow) -> bool
    ensures { result ≡ unwrap_or (row_says (says_up input) row) up }
{
    match row.word {
        NodeWord::Happens(What::Down(part)) if is_of_part(input, part) => false,
        NodeWord::Happens(What::Up(part)) if is_of_part(input, part) => true,
        _ => up,
    }
}

fn is_of_part(input: InputId, part: Part) -> bool
    ensures { result ≡ is_of_part input part }
{
    match (input, part) {
        (InputId::Line(line), Part::Link(link)) => line.0 / 2 == link,
        (InputId::Line(line), Part::Line(other)) => line.0 == other.0,
        (InputId::Source(source), Part::Source(other)) => source == other,
        _ => false,
    }
}

/// Whether a line's ESMC is on after some rows.
pub(crate) fn esmc_after(line: LineId, esmc: bool, here: &[NodeRow]) -> bool
    ensures { result ≡ unwrap_or (last_word (says_esmc line.0) (events_in here.now)) esmc }
{
    let mut is_on = esmc;
    for row in here {
        is_on = esmc_by(line, is_on, *row);
    }
    is_on
}

fn esmc_by(line: LineId, esmc: bool, row: NodeRow) -> bool
    ensures { result ≡ unwrap_or (row_says (says_esmc line.0) row) esmc }
{
    match row.word {
        NodeWord::Happens(What::EsmcOff(other)) if line.0 == other.0 => false,
        NodeWord::Happens(What::EsmcOn(other)) if line.0 == other.0 => true,
        _ => esmc,
    }
}

/// The level that rows say last of a source.
pub(crate) fn level_said(source: u32, here: &[NodeRow]) -> Option<Level>
    ensures { result ≡ last_word (says_level source) (events_in here.now) }
{
    let mut said = None;
    for row in here {
        said = level_by(source, said, *row);
    }
    said
}

fn level_by(source: u32, said: Option<Level>, row: NodeRow) -> Option<Level>
    ensures { result ≡ option_or (row_says (says_level source) row) said }
{
    match row.word {
        NodeWord::Happens(What::SourceLevel(other, level)) if source == other => Some(level),
        _ => said,
    }
}

/// What the last frame of some rows on a line says, if one comes.
pub(crate) fn last_frame(line: LineId, here: &[NodeRow]) -> Option<Option<Level>>
    ensures { result ≡ last_of (frames_on line.0 here.now) }
{
    let mut found = None;
    for row in here {
        found = frame_by(line, found, *row);
    }
    found
}

fn frame_by(line: LineId, found: Option<Option<Level>>, row: NodeRow) -> Option<Option<Level>>
    ensures { result ≡ option_or (said_on line.0 row) found }
{
    match row.word {
        NodeWord::Frame(other, level) if line.0 == other.0 => Some(level),
        _ => found,
    }
}

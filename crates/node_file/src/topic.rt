//! Of what a line is: what its word says of its target.

ghost use Rattle.std.specs.Prelude.{◌≡◌, ◌<◌, IfSome, length};
ghost use Rattle.sync_topo.specs.Lines.{line_count, IsInput};
ghost use Rattle.sync_topo.specs.Events.{IsPart, MayHappen};
ghost use Rattle.event_file.specs.Words.{IsSaid};
ghost use Rattle.node_file.specs.NodeRow.{is_at_source, is_at, is_part_of, is_of_element, is_frame_line};
ghost use Rattle.node_file.specs.Topic.{says_frame, is_there, topic_of};
ghost use Rattle.node_file.specs.private.Topic.{IsTopic};

use event_file::{Word, WordTarget};
use sync_topo::{InputId, LineId, Part, Plan, What};

/// Of what a row is, before the value is looked at. This project's own.
#[derive(Clone, Copy, Debug, PartialEq, Eq, Drop)]
pub enum Topic {
    /// A frame comes on a line.
    Comes(LineId),
    /// What a word of event files says.
    Says(WordTarget),
}

/// A word says that a frame comes.
pub(crate) fn says_frame(word: &[u8]) -> bool
    ensures { result ≡ says_frame word.now }
{
    word == b"frame".as_slice()
}

impl Topic {
    /// What a word says of the target of a name, at an element.
    ///
    /// `None` where there is no such word, or nothing of this name there of which it is said.
    pub(crate) fn of(plan: &Plan, element: u32, word: &[u8], target: &[u8]) -> Option<Topic>
        ensures topic { result ≡ topic_of plan.now element word.now target.now }
        ensures fits { IfSome result (IsTopic plan.now element) }
    {
        if says_frame(word) {
            let line = plan.line_of_name(target)?;
            return if is_frame_line(plan, element, line) {
                Some(Topic::Comes(line))
            } else {
                None
            };
        }
        let said = Word::of(word)?.said_of(plan, target)?;
        if is_there(plan, element, said) {
            Some(Topic::Says(said))
        } else {
            None
        }
    }
}

/// A frame may come on the line: it is nominated, and leads to the element.
fn is_frame_line(plan: &Plan, element: u32, line: LineId) -> bool
    requires { line.0 < line_count plan.now }
    ensures { result ≡ is_frame_line plan.now element line.0 }
{
    plan.nominated(InputId::Line(line)) && plan.to(line) == element
}

/// What is said is of the element, or of what is there.
fn is_there(plan: &Plan, element: u32, said: WordTarget) -> bool
    requires { IsSaid plan.now said }
    ensures { result ≡ is_there plan.now element said }
{
    match said {
        WordTarget::Happens(what) => is_of_element(plan, element, what),
        WordTarget::GetsLevel(source) => is_at_source(plan, element, source),
    }
}

/// What happens is of the element, or of what is there.
fn is_of_element(plan: &Plan, element: u32, what: What) -> bool
    requires { MayHappen plan.now what }
    ensures { result ≡ is_of_element plan.now element what }
{
    match what {
        What::Down(part) | What::Up(part) => is_part_of(plan, element, part),
        What::EsmcOff(line) | What::EsmcOn(line) => plan.from(line) == element,
        What::SourceLevel(source, _) => is_at_source(plan, element, source),
        What::Clear(other) => other == element,
        What::Lockout(input)
        | What::Unlock(input)
        | What::Forced(input)
        | What::Manual(input)
        | What::ClearWtr(input) => is_at(plan, element, input),
    }
}

/// The part is a line into or out of the element, or a source there.
fn is_part_of(plan: &Plan, element: u32, part: Part) -> bool
    requires { IsPart plan.now part }
    ensures { result ≡ is_part_of plan.now element part }
{
    match part {
        Part::Link(_) => false,
        Part::Line(line) => plan.to(line) == element || plan.from(line) == element,
        Part::Source(source) => is_at_source(plan, element, source),
    }
}

/// The input is a line into the element, or a source there.
fn is_at(plan: &Plan, element: u32, input: InputId) -> bool
    requires { IsInput plan.now input }
    ensures { result ≡ is_at plan.now element input }
{
    match input {
        InputId::Line(line) => plan.to(line) == element,
        InputId::Source(source) => is_at_source(plan, element, source),
    }
}

/// The source is at the element.
fn is_at_source(plan: &Plan, element: u32, source: u32) -> bool
    requires { source < length plan.now.sources }
    ensures { result ≡ is_at_source plan.now element source }
{
    plan.source(source).at == element
}

//! One line: its row, or the rule that it breaks.

ghost use Rattle.std.specs.Prelude.{◌≡◌, ℕ, true, false, ◌≤◌, ◌<◌, ◌/◌, ◌*◌, ◌==◌, IfOk, IfErr, IfSome, length, option_map, None, Some};
ghost use Rattle.std.specs.Str.Lines.{strip_carriage_return};
ghost use Rattle.hex.specs.Hex.{decode_of};
ghost use Rattle.event_file.specs.Words.{what_of};
ghost use Rattle.node_file.specs.NodeRow.{IsRowOf, IsWordOf};
ghost use Rattle.node_file.specs.private.NodeRow.{IsOnLine};
ghost use Rattle.sync_topo.specs.Topology.{Topology};
ghost use Rattle.sync_ql.specs.Told.{IsOfOption};
ghost use Rattle.esmc_frame.specs.Reading.{reading_of};
ghost use Rattle.capture_text.specs.private.Steps.{IsPut};
ghost use Rattle.node_file.specs.Topic.{is_word};
ghost use Rattle.node_file.specs.private.Topic.{IsTopic};
ghost use Rattle.node_file.specs.NodeFile.{is_blank, time_in, fields_of, level_carried, octets_said, frame_said, event_said, word_said, line_refusal, row_in};

use crate::error::NodeErr;
use crate::row::{NodeRow, NodeWord};
use crate::topic::{Topic, says_frame};
use capture_text::cut_at;
use esmc_frame::{Pdu, decode};
use event_file::{Word, WordTarget, time_of};
use sync_ql::{Level, NetOption, level_of_codes};
use sync_topo::{LineId, Plan};

/// How many bytes a line may have before its line feed.
pub(crate) const LINE_LIMIT: usize = 4096;

/// How many octets the digits of a line may give.
const MOST_OCTETS: usize = LINE_LIMIT / 2;

/// The row of a line of this number, counted from 1, where the last line before it that says something
/// has this time; none where it is empty.
#[tactic(auto, unfolding(crate::specs::NodeFile::line_refusal, crate::specs::NodeFile::row_in))]
pub(crate) fn row_of(
    plan: &Plan,
    element: u32,
    number: u64,
    before: u64,
    line: &[u8],
) -> Result<Option<NodeRow>, NodeErr>
    ensures sound { IfOk result (λ _. line_refusal plan.now element number before line.now ≡ None) }
    ensures row { IfOk result (λ row. row_in plan.now element line.now ≡ row) }
    ensures blank { IfOk result (λ row. row ≡ None → is_blank line.now ≡ true) }
    ensures time { IfOk result (λ row. IfSome row (λ r. (is_blank line.now ≡ false) × (time_in line.now ≡ Some r.at))) }
    ensures later { IfOk result (λ row. IfSome row (λ r. before ≤ r.at)) }
    ensures fits { IfOk result (λ row. IfSome row (IsRowOf plan.now element)) }
    ensures refused { IfErr result (λ error. line_refusal plan.now element number before line.now ≡ Some error) }
{
    if line.len() > LINE_LIMIT {
        return Err(NodeErr::Fields(number));
    }
    let line = without_carriage_return(line);
    if line.is_empty() {
        return Ok(None);
    }
    let Some((at, word, target, value)) = fields_of(line) else {
        return Err(NodeErr::Fields(number));
    };
    let Some(at) = time_of(at) else {
        return Err(NodeErr::Time(number));
    };
    if at < before {
        return Err(NodeErr::Order(number));
    }
    if !is_word(word) {
        return Err(NodeErr::What(number));
    }
    let Some(topic) = Topic::of(plan, element, word, target) else {
        return Err(NodeErr::Target(number));
    };
    let word = word_said(number, plan.option(), topic, value)?;
    Ok(Some(NodeRow { at, word }))
}

/// The line without a carriage return at its end.
fn without_carriage_return(line: &[u8]) -> &[u8]
    ensures { result.now ≡ strip_carriage_return line.now }
{
    match line.last() {
        Some(b'\r') => &line[..line.len() - 1],
        _ => line,
    }
}

/// The four fields between three commas.
fn fields_of(line: &[u8]) -> Option<(&[u8], &[u8], &[u8], &[u8])>
    ensures fields { option_map (λ fields. (fields.0.now, fields.1.now, fields.2.now, fields.3.now)) result ≡ fields_of line.now }
    ensures short { IfSome result (λ fields. length fields.3.now ≤ length line.now) }
{
    let (at, rest) = cut_at(line, b',');
    let (word, rest) = cut_at(rest?, b',');
    let (target, rest) = cut_at(rest?, b',');
    let (value, rest) = cut_at(rest?, b',');
    match rest {
        Some(_) => None,
        None => Some((at, word, target, value)),
    }
}

/// The bytes are a word of the format.
fn is_word(word: &[u8]) -> bool
    ensures { result ≡ is_word word.now }
{
    says_frame(word) || Word::of(word).is_some()
}

/// What a value says of a topic.
fn word_said(
    number: u64,
    option: NetOption,
    topic: Topic,
    value: &[u8],
) -> Result<NodeWord, NodeErr>
    requires { length value.now ≤ LINE_LIMIT }
    ensures said { result ≡ word_said number option topic value.now }
    ensures fits { (plan : Topology) (element : ℕ) → plan.option ≡ option → IsTopic plan element topic →
        IfOk result (IsWordOf plan element) }
{
    match topic {
        Topic::Comes(line) => frame_said(number, option, line, value),
        Topic::Says(said) => event_said(number, option, said, value),
    }
}

/// What happens, by a value.
fn event_said(
    number: u64,
    option: NetOption,
    said: WordTarget,
    value: &[u8],
) -> Result<NodeWord, NodeErr>
    ensures said { result ≡ event_said number (what_of option said value.now) }
    ensures fits { (plan : Topology) (element : ℕ) → plan.option ≡ option → IsTopic plan element (Topic.Says said) →
        IfOk result (IsWordOf plan element) }
{
    match said.with_value(option, value) {
        Some(what) => Ok(NodeWord::Happens(what)),
        None => Err(NodeErr::Value(number)),
    }
}

/// What a frame says that stands as hexadecimal digits.
fn frame_said(
    number: u64,
    option: NetOption,
    line: LineId,
    digits: &[u8],
) -> Result<NodeWord, NodeErr>
    requires { length digits.now ≤ LINE_LIMIT }
    ensures said { result ≡ octets_said number option line (decode_of digits.now) }
    ensures option { IfOk result (IsOnLine option line) }
{
    let mut room = [0; MOST_OCTETS];
    let octets = &mut room[..digits.len() / 2];
    if !put_octets(octets, digits) {
        return Err(NodeErr::Value(number));
    }
    word_of_frame(number, option, line, octets)
}

/// Puts the octets that digits give into room for as many. Whether they give octets.
fn put_octets(octets: &mut [u8], digits: &[u8]) -> bool
    requires { length octets.old ≡ length digits.now / 2 }
    ensures { IsPut (decode_of digits.now) result octets.new }
{
    hex::decode_to_slice(digits, octets).is_ok()
}

/// What the frame of some octets says.
fn word_of_frame(
    number: u64,
    option: NetOption,
    line: LineId,
    octets: &[u8],
) -> Result<NodeWord, NodeErr>
    ensures said { result ≡ frame_said number option line (reading_of octets.now) }
    ensures option { IfOk result (IsOnLine option line) }
{
    match decode(octets) {
        Ok(pdu) => Ok(NodeWord::Frame(line, level_carried(option, &pdu))),
        Err(error) => Err(NodeErr::Frame(number, error)),
    }
}

/// The level that the codes of a frame name.
fn level_carried(option: NetOption, pdu: &Pdu) -> Option<Level>
    ensures level { result ≡ level_carried option pdu.now }
    ensures option { IsOfOption option result }
{
    let enhanced = match &pdu.extended {
        Some(extended) => Some(extended.code),
        None => None,
    };
    level_of_codes(option, pdu.code, enhanced)
}

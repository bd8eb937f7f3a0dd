ghost use Rattle.std.specs.Prelude.{◌≡◌, ◌≤◌, false, IsTrue, length, map, Some, None, IfSome, if◌then◌else◌};
ghost use Rattle.std.specs.Option.{option_map};
ghost use Rattle.std.specs.String.{string_bytes};
ghost use Rattle.plan_rows.specs.Format.{option_of};
ghost use Rattle.sync_top.specs.Form.{form_of, form_in, are_large, form_of_two, form_of_three, form_of_four, file_form, sweep_form, node_form, ladder_size, millisecond_of, is_file_word, plan_word, file_word, run_word, frames_word, frames_word_in, ladder_word};
ghost use Rattle.sync_topo.specs.Sizes.{most_elements};
ghost use Rattle.sync_top.specs.private.FormSeen.{seen, IsFileTimed, IsSized};

use plan_rows::option_of_text;
use sync_ql::NetOption;
use sync_ql::limits::LAST_MILLISECOND;
use sync_text::read_number;
use sync_topo::{MOST_ELEMENTS, STANDARD_ELEMENTS, Size};

/// What is asked of a plan.
#[derive(Clone, Copy, Drop)]
pub(crate) enum PlanForm {
    /// The least ranks as a certificate, or the first cycle.
    Rank,
    /// The longest chains into each element, or the first cycle.
    Chains,
    /// Whom each single failure cuts off that needn't be.
    Protected,
    /// The plan with priorities by which no single failure cuts anybody off, or whom failures cut off in
    /// the plan that is found.
    Protect,
    /// Whether priorities agree with the ways of timing, and the bound, or the first clash.
    Agree,
    /// The hop counts.
    Hops,
    /// The plan with priorities by fewest hops.
    Nominate,
    /// The least ranks where elements choose by priority alone, or the forced switches that make the
    /// first loop.
    PrioRank,
    /// What becomes of it where one link alone fails, for each link; milliseconds up to 86,400,000.
    Sweep {
        /// The millisecond in which a link fails, at most the last one.
        at: u64,
        /// The last millisecond.
        until: u64,
    },
}

/// What is asked of the ranks of a certificate on a plan.
#[derive(Clone, Copy, Drop)]
pub(crate) enum RanksForm {
    /// Whether they rise over every hop.
    Check,
    /// The same where elements choose by priority alone.
    PrioCheck,
}

/// What is asked of a run of a plan with events.
#[derive(Clone, Copy, Drop)]
pub(crate) enum EventsForm {
    /// Its report.
    Sim,
    /// Its report where elements choose by priority alone.
    PrioSim,
    /// Why elements take what they take in its last millisecond.
    Inspect,
}

/// What is asked of a plan and a file that goes with it.
#[derive(Clone, Copy, Drop)]
pub(crate) enum FileForm {
    /// Of the ranks of a certificate.
    Ranks(RanksForm),
    /// Of groups of parts that fail together: whether the plan is protected with them.
    Groups,
    /// Of events: a run up to a millisecond, at most 86,400,000.
    Events(EventsForm, u64),
    /// Of cases: runs up to such a millisecond.
    Study(u64),
}

/// What is asked of captured frames or rows.
#[derive(Clone, Copy, Drop)]
pub(crate) enum FramesForm {
    /// The rows of frames.
    Decode,
    /// The frames of rows.
    Encode,
    /// The rows of the frames in a capture, with their times.
    PcapDecode,
    /// The capture of rows with times.
    PcapEncode,
}

/// What is asked of a ladder.
#[derive(Clone, Copy, Drop)]
pub(crate) enum LadderForm {
    /// Its plan.
    Gen,
    /// What is found of it.
    Trial,
}

/// The file of a plan, and the size that the words allow the plan.
#[derive(Clone, Copy, Drop)]
pub(crate) struct PlanName<'a> {
    /// The most that the plan may be.
    pub(crate) size: Size,
    /// The file's name.
    pub(crate) name: &'a str,
}

/// What the program is asked for, by what it reads.
#[derive(Clone, Copy, Drop)]
pub(crate) enum Form<'a> {
    /// Of a plan, by the name of its file.
    OnPlan(PlanForm, PlanName<'a>),
    /// Of a plan and a file that goes with it, by the names of both files.
    OnFile(FileForm, PlanName<'a>, &'a str),
    /// Of captured frames or rows, by the option of their levels and the name of their file.
    OnFrames(FramesForm, NetOption, &'a str),
    /// Of the ladder of so many elements, 2 to 2,000, or to 100,000 where plans may be large.
    OnLadder(LadderForm, u32),
    /// The frames that an element sends.
    Node {
        /// The plan's file.
        plan: PlanName<'a>,
        /// The element's name, which may be any word.
        element: &'a str,
        /// The file of what the element received.
        file: &'a str,
        /// The last millisecond, at most 86,400,000.
        until: u64,
    },
}

/// The form of the words, if they have one.
///
/// Plans may be large where the first word is `large`, and then the words after it are the form.
pub(crate) fn form_of(words: &[String]) -> Option<Form<'_>>
    ensures form { option_map seen result ≡ form_of (map string_bytes words.now) }
    ensures sized { IfSome result IsSized }
{
    if are_large(words) {
        return form_in(Size::Large, &words[1..]);
    }
    form_in(Size::Standard, words)
}

/// The first word allows large plans.
fn are_large(words: &[String]) -> bool
    ensures large { result ≡ are_large (map string_bytes words.now) }
    ensures some { IsTrue result → 1 ≤ length words.now }
{
    match words.first() {
        Some(word) => word.as_str() == "large",
        None => false,
    }
}

/// The form of the words where plans may be of a size, if they have one.
fn form_in(size: Size, words: &[String]) -> Option<Form<'_>>
    ensures form { option_map seen result ≡ form_in size (map string_bytes words.now) }
    ensures sized { IfSome result IsSized }
{
    match words {
        [word, second] => form_of_two(size, word.as_str(), second.as_str()),
        [word, second, third] => {
            form_of_three(size, word.as_str(), second.as_str(), third.as_str())
        }
        [word, second, third, fourth] => form_of_four(
            size,
            word.as_str(),
            second.as_str(),
            third.as_str(),
            fourth.as_str(),
        ),
        [word, second, third, fourth, fifth] if word.as_str() == "node" => node_form(
            size,
            second.as_str(),
            third.as_str(),
            fourth.as_str(),
            fifth.as_str(),
        ),
        _ => None,
    }
}

/// What a word asks of a plan.
fn plan_word(word: &str) -> Option<PlanForm>
    ensures { result ≡ plan_word word.now }
{
    match word {
        "rank" => Some(PlanForm::Rank),
        "chains" => Some(PlanForm::Chains),
        "protected" => Some(PlanForm::Protected),
        "protect" => Some(PlanForm::Protect),
        "agree" => Some(PlanForm::Agree),
        "hops" => Some(PlanForm::Hops),
        "nominate" => Some(PlanForm::Nominate),
        "prio-rank" => Some(PlanForm::PrioRank),
        _ => None,
    }
}

/// What a word asks of a ladder.
fn ladder_word(word: &str) -> Option<LadderForm>
    ensures { result ≡ ladder_word word.now }
{
    match word {
        "gen" => Some(LadderForm::Gen),
        "trial" => Some(LadderForm::Trial),
        _ => None,
    }
}

/// What a word asks of a plan and a file.
fn file_word(word: &str) -> Option<FileForm>
    ensures word { result ≡ file_word word.now }
    ensures timed { IfSome result IsFileTimed }
{
    match word {
        "check" => Some(FileForm::Ranks(RanksForm::Check)),
        "prio-check" => Some(FileForm::Ranks(RanksForm::PrioCheck)),
        "protected" => Some(FileForm::Groups),
        _ => None,
    }
}

/// What a word asks of a plan, a file and a millisecond.
fn run_word(word: &str, until: u64) -> Option<FileForm>
    requires in_range { until ≤ LAST_MILLISECOND }
    ensures word { result ≡ run_word word.now until }
    ensures timed { IfSome result IsFileTimed }
{
    match word {
        "sim" => Some(FileForm::Events(EventsForm::Sim, until)),
        "prio-sim" => Some(FileForm::Events(EventsForm::PrioSim, until)),
        "inspect" => Some(FileForm::Events(EventsForm::Inspect, until)),
        "study" => Some(FileForm::Study(until)),
        _ => None,
    }
}

/// What a word asks of captured frames or rows.
fn frames_word(word: &str) -> Option<FramesForm>
    ensures { result ≡ frames_word word.now }
{
    match word {
        "decode" => Some(FramesForm::Decode),
        "encode" => Some(FramesForm::Encode),
        "pcap-decode" => Some(FramesForm::PcapDecode),
        "pcap-encode" => Some(FramesForm::PcapEncode),
        _ => None,
    }
}

/// The same where plans may be of a size: frames and rows go with no plan, so that none are asked
/// for where it is large.
fn frames_word_in(size: Size, word: &str) -> Option<FramesForm>
    ensures { result ≡ frames_word_in size word.now }
{
    match size {
        Size::Standard => frames_word(word),
        Size::Large => None,
    }
}

/// The form of two words, if they have one.
fn form_of_two<'a>(size: Size, word: &str, second: &'a str) -> Option<Form<'a>>
    ensures form { option_map seen result ≡ form_of_two size (plan_word word.now) (ladder_word word.now) second.now }
    ensures sized { IfSome result IsSized }
{
    if let Some(what) = plan_word(word) {
        if second.is_empty() {
            return None;
        }
        return Some(Form::OnPlan(what, PlanName { size, name: second }));
    }
    let what = ladder_word(word)?;
    let elements = ladder_size(size, second)?;
    Some(Form::OnLadder(what, elements))
}

/// The form of three words, if they have one.
fn form_of_three<'a>(size: Size, word: &str, second: &'a str, third: &'a str) -> Option<Form<'a>>
    ensures form { option_map seen result
        ≡ form_of_three size (file_word word.now) (frames_word_in size word.now) second.now third.now }
    ensures sized { IfSome result IsSized }
{
    if let Some(what) = file_word(word) {
        return file_form(size, what, second, third);
    }
    let what = frames_word_in(size, word)?;
    let option = option_with(second, third)?;
    Some(Form::OnFrames(what, option, third))
}

/// The form of four words, if they have one.
fn form_of_four<'a>(
    size: Size,
    word: &str,
    second: &'a str,
    third: &'a str,
    fourth: &str,
) -> Option<Form<'a>>
    ensures form { option_map seen result ≡ form_of_four size word.now second.now third.now fourth.now }
    ensures sized { IfSome result IsSized }
{
    if word == "sweep" {
        return sweep_form(size, second, third, fourth);
    }
    let until = millisecond_of(fourth)?;
    let what = run_word(word, until)?;
    file_form(size, what, second, third)
}

/// The form on a plan and a file, if both words may name files.
fn file_form<'a>(size: Size, what: FileForm, plan: &'a str, name: &'a str) -> Option<Form<'a>>
    requires timed { IsFileTimed what }
    ensures form { option_map seen result ≡ file_form size what plan.now name.now }
    ensures sized { IfSome result IsSized }
{
    if plan.is_empty() || name.is_empty() {
        return None;
    }
    Some(Form::OnFile(what, PlanName { size, name: plan }, name))
}

/// The form `sweep`, if the word may name a file and is followed by two such milliseconds, the
/// first of them not the later.
fn sweep_form<'a>(size: Size, plan: &'a str, at: &str, until: &str) -> Option<Form<'a>>
    ensures form { option_map seen result ≡ sweep_form size plan.now at.now until.now }
    ensures sized { IfSome result IsSized }
{
    if plan.is_empty() {
        return None;
    }
    let at = read_number(at.as_bytes())?;
    let until = millisecond_of(until)?;
    if until < at {
        return None;
    }
    Some(Form::OnPlan(PlanForm::Sweep { at, until }, PlanName { size, name: plan }))
}

/// The form `node`, if its first and third word may name files and are followed by such a
/// millisecond.
fn node_form<'a>(
    size: Size,
    plan: &'a str,
    element: &'a str,
    file: &'a str,
    until: &str,
) -> Option<Form<'a>>
    ensures form { option_map seen result ≡ node_form size plan.now element.now file.now until.now }
    ensures sized { IfSome result IsSized }
{
    if plan.is_empty() || file.is_empty() {
        return None;
    }
    let until = millisecond_of(until)?;
    Some(Form::Node {
        plan: PlanName { size, name: plan },
        element,
        file,
        until,
    })
}

/// The most elements of a ladder: as many as of a plan of the size.
fn most_elements(size: Size) -> u64
    ensures most { result ≡ most_elements size }
    ensures at_most { result ≤ MOST_ELEMENTS }
{
    match size {
        Size::Standard => STANDARD_ELEMENTS as u64,
        Size::Large => MOST_ELEMENTS as u64,
    }
}

/// The number of elements that a word gives a ladder, if it may have so many.
fn ladder_size(size: Size, word: &str) -> Option<u32>
    ensures size { result ≡ ladder_size size word.now }
    ensures sized { IfSome result (λ n. (2 ≤ n) × (n ≤ MOST_ELEMENTS)) }
{
    match read_number(word.as_bytes()) {
        Some(n) if 2 <= n && n <= most_elements(size) => Some(n as u32),
        _ => None,
    }
}

/// The millisecond of a word, if it is one up to the last one.
fn millisecond_of(word: &str) -> Option<u64>
    ensures millisecond { result ≡ millisecond_of word.now }
    ensures in_range { IfSome result (λ t. t ≤ LAST_MILLISECOND) }
{
    match read_number(word.as_bytes()) {
        Some(t) if t <= LAST_MILLISECOND => Some(t),
        _ => None,
    }
}

/// The network option of a word, if another word may name a file.
fn option_with(option: &str, name: &str) -> Option<NetOption>
    ensures { result ≡ (if is_file_word name.now then option_of option.now else None) }
{
    if name.is_empty() {
        return None;
    }
    option_of_text(option)
}

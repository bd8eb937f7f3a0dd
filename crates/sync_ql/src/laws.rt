//! What follows from the rules of one element and of one line, for crates that hold none.
//!
//! Each function does nothing: its contract is the law. This project's own.

ghost use Rattle.std.specs.Prelude.{◌≡◌, ◌≤◌, ◌<◌, ℕ, suc, ◌+◌, true, List, ◌∷◌, Option, None, Some, IfSome, length};
ghost use Rattle.sync_ql.specs.declared.levels.Level.{Level};
ghost use Rattle.sync_ql.specs.declared.rules.Candidate.{Candidate};
ghost use Rattle.sync_ql.specs.Selection.{choice, standing_manual, IsEligible};
ghost use Rattle.sync_ql.specs.Moment.{Moment, Settings, selection_at};
ghost use Rattle.sync_ql.specs.Told.{quiet_moment, moments_until};
ghost use Rattle.sync_ql.specs.Quiet.{IsSameFailed, IsSameOutput, IsElementDue};
ghost use Rattle.sync_ql.specs.Taken.{MayBeTaken, AllAlike};
ghost use Rattle.sync_ql.specs.Pasts.{past_of};
ghost use Rattle.sync_ql.specs.Messages.{LineMoment, said_in, came, heard_at, hearing_time};

/// The laws of the choice: what is chosen is eligible; choosing again from what was chosen changes
/// nothing; and candidates that are alike place by place, each the same or none of both eligible,
/// give one choice, and the same manual switch stands.
pub fn choice_law()
    ensures eligible { (inputs : List Candidate) (forced manual taken : Option ℕ) →
        IfSome (choice inputs forced (standing_manual inputs manual) taken) (IsEligible inputs) }
    ensures again { (inputs : List Candidate) (forced manual taken : Option ℕ) →
        choice inputs forced manual (choice inputs forced manual taken)
        ≡ choice inputs forced manual taken }
    ensures alike { (inputs others : List Candidate) → AllAlike inputs others →
        (forced manual taken : Option ℕ) →
        choice inputs forced manual taken ≡ choice others forced manual taken }
    ensures manual { (inputs others : List Candidate) → AllAlike inputs others →
        (manual : Option ℕ) → standing_manual inputs manual ≡ standing_manual others manual }
{}

/// The law of the input that is taken: it is neither locked out nor failed, and has a level better
/// than do-not-use, than which the floor is not better.
pub fn taken_law()
    ensures { (settings : Settings) (now : Moment) (before : List Moment) →
        IfSome (selection_at settings (now ∷ before)) (MayBeTaken settings (now ∷ before)) }
{}

/// The law of a quiet millisecond: where nothing is told in it, and each input is failed exactly as
/// before, the selection, the level, the levels sent back, the mode and the state stay. So they do
/// while nothing is told, up to but not at the first millisecond at which an input's "failed"
/// changes.
pub fn quiet_law()
    ensures one { (settings : Settings) (now : Moment) (before : List Moment) →
        IsSameFailed settings (now ∷ before) (quiet_moment settings (now ∷ before) ∷ now ∷ before) →
        IsSameOutput settings (now ∷ before) (quiet_moment settings (now ∷ before) ∷ now ∷ before) }
    ensures until { (settings : Settings) (now : Moment) (before : List Moment)
        (due : Option ℕ) (n : ℕ) → IsElementDue settings (now ∷ before) due →
        length (now ∷ before) ≤ n → IfSome due (λ due. n ≤ due) →
        IsSameOutput settings (now ∷ before) (moments_until settings n (now ∷ before)) }
{}

/// The laws of a line. It is a delay: what it says is heard a delay later if it was up since, and no
/// repeat has to be looked at. What arrived last is heard for five seconds, and nothing is heard where
/// nothing arrived so long. What is heard doesn't depend on what is said in the same millisecond.
///
/// After G.8264, event and information messages; whole milliseconds are this project's own.
pub fn line_law()
    ensures delay { (moments : ℕ → LineMoment) (level : Level) (delay said heard : ℕ) →
        heard ≡ delay + said → said_in (moments said) ≡ Some level →
        ((t : ℕ) → said ≤ t → t ≤ heard → (moments t).up ≡ true) →
        heard_at delay (past_of moments (suc heard)) ≡ Some level }
    ensures last { (moments : ℕ → LineMoment) (level : Level) (delay arrival now : ℕ) →
        arrival ≤ now → came delay (past_of moments (suc arrival)) ≡ Some level →
        ((t : ℕ) → arrival < t → t ≤ now → came delay (past_of moments (suc t)) ≡ None) →
        now < arrival + hearing_time → heard_at delay (past_of moments (suc now)) ≡ Some level }
    ensures lost { (moments : ℕ → LineMoment) (delay now : ℕ) →
        ((t : ℕ) → t ≤ now → now < t + hearing_time →
        came delay (past_of moments (suc t)) ≡ None) →
        heard_at delay (past_of moments (suc now)) ≡ None }
    ensures earlier { (delay : ℕ) (now other : LineMoment) (before : List LineMoment) →
        1 ≤ delay → now.up ≡ other.up →
        heard_at delay (now ∷ before) ≡ heard_at delay (other ∷ before) }
{}

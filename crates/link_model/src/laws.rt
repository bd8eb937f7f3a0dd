//! What the calls of one millisecond make of a line's past, and what becomes of the messages on
//! their way: for crates that cite it where they hold no line.
//!
//! The functions do nothing: their contracts are the laws. This project's own.

ghost use Rattle.std.specs.Prelude.{◌≡◌, ◌≤◌, ◌+◌, ◌*◌, ℕ, suc, Bool, true, List, ◌∷◌, length, drop, Some, All};
ghost use Rattle.sync_ql.specs.declared.levels.Level.{Level};
ghost use Rattle.sync_ql.specs.Messages.{LineMoment, came, is_news, on_way_at, unchanged, line_until};
ghost use Rattle.link_model.specs.Calls.{told, turned, with_up, with_esmc, with_level};
ghost use Rattle.link_model.specs.LineState.{LineState};
ghost use Rattle.link_model.specs.StandsFor.{StandsFor};

/// The law of the calls of one millisecond: `set_up`, `set_esmc`, `take_due` and `say`, one after
/// another, tell all of it, whatever it was before them, and a `set_up` or `set_esmc` that changes
/// nothing may be left out. A past is as long as the turns that were taken say, and goes on
/// millisecond by millisecond where nothing is told.
pub fn calls_law()
    ensures all { (up esmc : Bool) (level : Level) (now : LineMoment) (before : List LineMoment) →
        with_level level (with_esmc esmc (with_up up (now ∷ before)))
        ≡ told up esmc level ∷ before }
    ensures calls { (up esmc : Bool) (level : Level) (now : ℕ) (past : List LineMoment) →
        length past ≤ now →
        with_level level (line_until (suc now) (line_until (suc now)
        (with_esmc esmc (line_until (suc now) (with_up up (line_until (suc now) past))))))
        ≡ told up esmc level ∷ line_until now past }
    ensures same { (now : LineMoment) → turned now now.up now.esmc ≡ now }
    ensures low { (line : LineState) (past : List LineMoment) → StandsFor line past →
        4 * length past ≤ line.turn + 3 }
    ensures high { (line : LineState) (past : List LineMoment) → StandsFor line past →
        line.turn ≤ 4 * length past }
    ensures still { (n : ℕ) (past : List LineMoment) → length past ≡ n →
        line_until n past ≡ past }
    ensures next { (now : ℕ) (past : List LineMoment) → length past ≤ now →
        line_until (suc now) past ≡ unchanged past ∷ line_until now past }
    ensures long { (n : ℕ) (past : List LineMoment) → length past ≤ n →
        length (line_until n past) ≡ n }
{}

/// The law of the messages on their way: if nothing more is told of the line, each arrives a delay
/// after it went out, with its level, and it is one that went out with news.
pub fn news_law()
    ensures arrives { (delay : ℕ) (past : List LineMoment) → All (λ message.
        came delay (line_until (suc (message.sent + delay)) past) ≡ Some message.level)
        (on_way_at delay past) }
    ensures news { (delay : ℕ) (past : List LineMoment) → All (λ message.
        is_news (drop delay (line_until (suc (message.sent + delay)) past)) ≡ true)
        (on_way_at delay past) }
{}

//! Whether two elements show the same.

ghost use Rattle.std.specs.Prelude.{◌≡◌};
ghost use Rattle.shown_words.specs.Sameness.{is_same_mode, is_same_state, is_same_taken};

use sync_ql::rules::{ClockState, Mode};
use sync_topo::InputId;

/// Whether two modes are the same.
///
/// This project's own.
pub fn is_same_mode(one: Mode, other: Mode) -> bool
    ensures { result ≡ is_same_mode one other }
{
    one == other
}

/// Whether two states of a clock are the same.
///
/// This project's own.
pub fn is_same_state(one: ClockState, other: ClockState) -> bool
    ensures { result ≡ is_same_state one other }
{
    one == other
}

/// Whether two elements take inputs that are the same, or both take none.
///
/// This project's own.
pub fn is_same_taken(one: Option<InputId>, other: Option<InputId>) -> bool
    ensures { result ≡ is_same_taken one other }
{
    one == other
}

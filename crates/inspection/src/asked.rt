//! What an operator asks of an element.

ghost use Rattle.std.specs.Prelude.{◌≡◌, ◌<◌, IfSome, length};
ghost use Rattle.sync_ql.specs.Switches.{NamesInput};
ghost use Rattle.sync_topo.specs.Events.{MayHappen};
ghost use Rattle.sync_topo.specs.Lines.{inputs_of, IsInput};
ghost use Rattle.inspection.specs.Commands.{asked_of, on_input, order_word};
ghost use Rattle.inspection.specs.private.Tables.{IsAskedIn, order_at, command_by};

use operator_cmds::Cmd;
use sync_topo::{InputId, Plan, What};

/// What a command is about. After G.781, external commands.
#[derive(Clone, Copy, Debug, PartialEq, Eq)]
pub enum Order {
    /// To lock an input out.
    Lockout,
    /// To end a lockout.
    Unlock,
    /// To force an input.
    Forced,
    /// To switch to an input.
    Manual,
    /// To end the forced or manual switch.
    Clear,
}

/// A command, as it was given.
#[derive(Clone, Copy, Debug, PartialEq, Eq)]
pub struct Asked {
    /// The number of the element.
    pub element: u32,
    /// What it is about.
    pub order: Order,
    /// The input that it names.
    pub input: Option<InputId>,
}

/// The command that happens, where one does.
pub(crate) fn asked_of(plan: &Plan, what: What) -> Option<Asked>
    requires may { MayHappen plan.now what }
    ensures asked { result ≡ asked_of plan.now what }
    ensures within { IfSome result (IsAskedIn plan.now) }
{
    match what {
        What::Lockout(input) => Some(on_input(plan, Order::Lockout, input)),
        What::Unlock(input) => Some(on_input(plan, Order::Unlock, input)),
        What::Forced(input) => Some(on_input(plan, Order::Forced, input)),
        What::Manual(input) => Some(on_input(plan, Order::Manual, input)),
        What::Clear(element) => Some(Asked {
            element,
            order: Order::Clear,
            input: None,
        }),
        What::Down(_)
        | What::Up(_)
        | What::EsmcOff(_)
        | What::EsmcOn(_)
        | What::SourceLevel(_, _)
        | What::ClearWtr(_) => None,
    }
}

/// A command on an input.
fn on_input(plan: &Plan, order: Order, input: InputId) -> Asked
    requires input { IsInput plan.now input }
    ensures asked { result ≡ on_input plan.now order input }
    ensures within { IsAskedIn plan.now result }
{
    Asked {
        element: plan.element_of(input),
        order,
        input: Some(input),
    }
}

/// The command as the element gets it; one on an input that isn't nominated it doesn't get.
pub(crate) fn command_by(plan: &Plan, asked: Asked) -> Option<Cmd>
    requires within { IsAskedIn plan.now asked }
    ensures command { result ≡ command_by plan.now asked }
    ensures place { IfSome result (NamesInput (length (inputs_of plan.now asked.element))) }
{
    match asked.input {
        Some(input) => match plan.place_of(input) {
            Some(place) => Some(order_at(asked.order, place)),
            None => None,
        },
        None => Some(Cmd::Clear),
    }
}

/// The command on the input at a place.
fn order_at(order: Order, place: u32) -> Cmd
    ensures { result ≡ order_at order place }
{
    match order {
        Order::Lockout => Cmd::Lockout(place),
        Order::Unlock => Cmd::Unlock(place),
        Order::Forced => Cmd::Forced(place),
        Order::Manual => Cmd::Manual(place),
        Order::Clear => Cmd::Clear,
    }
}

/// The word for what a command is about.
pub(crate) fn order_word(order: Order) -> &'static [u8]
    ensures { result.now ≡ order_word order }
{
    match order {
        Order::Lockout => b"lockout",
        Order::Unlock => b"unlock",
        Order::Forced => b"forced",
        Order::Manual => b"manual",
        Order::Clear => b"clear",
    }
}

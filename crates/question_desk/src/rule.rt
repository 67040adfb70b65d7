//! The rule of the queue, and the kinds of step.
use crate::ask::Ask;
use crate::view::View;
use crossbeam_queue::protocol::{Join, Lesson, Outcome, Protocol, Split};

/// The rule that every step on the queue keeps: what was taken of each sender, and then what the queue has of it, is what
/// it sent, in its order and with numbers from 0.
pub struct InOrder;

impl Protocol<Ask, View> for InOrder {
    ghost use Rattle.question_desk.specs.Views.{everyone};
    ghost use Rattle.question_desk.specs.Order.{Kept};

    ghost holds = { Kept };

    ghost first = { everyone };
}

/// The role of sender 1 is handed on.
pub struct HandsSecond;

impl Split<View> for HandsSecond {
    ghost use Rattle.question_desk.specs.Views.{without_second, second_of};

    ghost left = { without_second };

    ghost right = { second_of };
}

/// The taker's role is handed on.
pub struct HandsTaker;

impl Split<View> for HandsTaker {
    ghost use Rattle.question_desk.specs.Views.{without_taker, taker_of};

    ghost left = { without_taker };

    ghost right = { taker_of };
}

/// Two passes are joined.
pub struct Joins;

impl Join<View> for Joins {
    ghost use Rattle.question_desk.specs.Views.{joined, nobody};

    ghost both = { joined };

    ghost spent = { nobody };
}

/// A push, or a try that finds the queue full.
pub struct Sends;

impl Outcome<Ask, View> for Sends {
    ghost use Rattle.std.specs.Prelude.{◌≡◌};
    ghost use Rattle.question_desk.specs.Views.{sending};

    ghost then = { λ v ask w. w ≡ sending v ask };
}

impl Lesson<Ask, View> for Sends {
    ghost use Rattle.question_desk.specs.Order.{Finds};

    ghost fact = { Finds };
}

/// A pop, or a try that finds the queue empty.
pub struct Takes;

impl Outcome<Ask, View> for Takes {
    ghost use Rattle.std.specs.Prelude.{◌≡◌};
    ghost use Rattle.question_desk.specs.Views.{taking};

    ghost then = { λ v ask w. w ≡ taking v ask };
}

impl Lesson<Ask, View> for Takes {
    ghost use Rattle.question_desk.specs.Order.{Finds};

    ghost fact = { Finds };
}

//! The desk, its two senders and its taker.
ghost use Rattle.std.specs.Prelude.{◌≡◌, ◌^◌, ◌<◌, ◌≤◌, [], length};
ghost use Rattle.crossbeam_queue.specs.Passes.{view, ruled_capacity};
ghost use Rattle.question_desk.specs.Views.{sender_view, taker_view};
ghost use Rattle.question_desk.specs.Senders.{sent_by};

use crate::ask::Ask;
use crate::rule::InOrder;
use crate::view::View;
use crossbeam_queue::{Pass, RuledArrayQueue};

/// A queue of asks under the rule.
pub(crate) type Queue = RuledArrayQueue<Ask, View, InOrder>;

/// A desk with room for some asks. Two senders bring questions and one taker takes them; they are made with the desk and
/// may go to threads of their own.
#[derive(Drop)]
pub struct Desk {
    pub(crate) queue: Queue,
    ghost small: { ruled_capacity queue ≤ 2 ^ 16 },
}

/// The right to send to one desk, as sender 0 or as sender 1.
#[derive(Drop)]
pub struct Sender {
    pub(crate) pass: Pass<Ask, View>,
    pub(crate) sender: u32,
    pub(crate) number: u32,
    ghost known: { sender < 2 },
    ghost role: { view pass ≡ sender_view sender (sent_by sender (view pass)) },
    ghost counted: { number ≡ length (sent_by sender (view pass)) },
    ghost bare: { pass.me.1 ≡ [] },
}

/// The right to take from one desk.
#[derive(Drop)]
pub struct Taker {
    pub(crate) pass: Pass<Ask, View>,
    ghost role: { view pass ≡ taker_view (view pass).taken },
    ghost bare: { pass.me.1 ≡ [] },
}

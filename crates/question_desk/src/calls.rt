//! The calls on a desk.
ghost use Rattle.std.specs.Prelude.{◌≡◌, ℕ, ◌+◌, ◌-◌, ◌^◌, ◌<◌, ◌≤◌, [], ◌∷◌, ◌++◌, length, IfOk, IfErr, IfSome, IfNone, OnOk};
ghost use Rattle.question_desk.specs.Calls.{room_of, number_of, sent, taken, IsSenderOf, IsTakerOf, SenderFound, TakerFound, KeptOrder};

use crate::ask::{Ask, Full};
use crate::desk::{Desk, Queue, Sender, Taker};
use crate::rule::{HandsSecond, HandsTaker, Joins, Sends, Takes};
use alias_query::Question;
use pta_base::OutOfMemory;
use std::alloc::Global;
use std::sync::Wait;

impl Desk {
    /// A desk with room for so many asks, from 1 to 65,536, its senders 0 and 1, and its taker. Nothing was sent or taken.
    pub fn new(alloc: Global, room: usize) -> Result<(Desk, Sender, Sender, Taker), OutOfMemory>
        requires some { 1 ≤ room }
        requires most { room ≤ 2 ^ 16 }
        ensures room { IfOk result (λ made. room_of made.0 ≡ room) }
        ensures own { IfOk result (λ made. IsSenderOf made.0 made.1 × IsSenderOf made.0 made.2 × IsTakerOf made.0 made.3) }
        ensures numbers { IfOk result (λ made. (number_of made.1 ≡ 0) × (number_of made.2 ≡ 1)) }
        ensures empty { IfOk result (λ made. (sent made.1 ≡ []) × (sent made.2 ≡ []) × (taken made.3 ≡ [])) }
    {
        let (queue, mut pass) = Queue::ruled(alloc, room)?;
        let second = queue.another::<HandsSecond>(&mut pass);
        let taker = queue.another::<HandsTaker>(&mut pass);
        Ok((
            Desk { queue },
            Sender {
                pass,
                sender: 0,
                number: 0,
            },
            Sender {
                pass: second,
                sender: 1,
                number: 0,
            },
            Taker { pass: taker },
        ))
    }

    /// Sends a question under the sender's next number, from 0. `Full` comes only where a step of this sender found as many
    /// asks in the queue as there is room for; the question then comes back, and the number isn't used up. It may wait
    /// behind a thread that has stalled, and takes no memory.
    pub fn send<R: Wait>(&self, rt: &R, sender: &mut Sender, question: Question) -> Result<(), Full>
        requires own { IsSenderOf self.now sender.old }
        requires few { length (sent sender.old) < 2 ^ 32 - 1 }
        ensures own { IsSenderOf self.now sender.new }
        ensures number { number_of sender.new ≡ number_of sender.old }
        ensures sent { OnOk result (sent sender.new ≡ sent sender.old ++ question ∷ []) }
        ensures back { IfErr result (λ full. (full.question ≡ question) × (sent sender.new ≡ sent sender.old)) }
        ensures full { IfErr result (λ full. SenderFound sender.old (room_of self.now)) }
    {
        let ask = Ask {
            sender: sender.sender,
            number: sender.number,
            question,
        };
        match self.queue.push_as::<Sends, R>(rt, &mut sender.pass, ask) {
            Ok(()) => {
                sender.number += 1;
                Ok(())
            }
            Err(back) => Err(Full {
                question: back.question,
            }),
        }
    }

    /// Takes the ask that has waited longest. `None` comes only where a step of the taker found the queue empty. It may
    /// wait behind a thread that has stalled, and takes no memory.
    pub fn take<R: Wait>(&self, rt: &R, taker: &mut Taker) -> Option<Ask>
        requires own { IsTakerOf self.now taker.old }
        ensures own { IsTakerOf self.now taker.new }
        ensures taken { IfSome result (λ ask. taken taker.new ≡ taken taker.old ++ ask ∷ []) }
        ensures none { IfNone result (taken taker.new ≡ taken taker.old) }
        ensures empty { IfNone result (TakerFound taker.old 0) }
    {
        self.queue.pop_as::<Takes, R>(rt, &mut taker.pass)
    }

    /// Ends the desk, once its senders and its taker are back, and answers how many asks were left in the queue; they go
    /// with it. It may wait behind a thread that has stalled, and takes no memory.
    pub fn finish<R: Wait>(self, rt: &R, first: Sender, second: Sender, taker: Taker) -> u32
        requires own { IsSenderOf self first × IsSenderOf self second × IsTakerOf self taker }
        requires numbers { (number_of first ≡ 0) × (number_of second ≡ 1) }
        ensures { KeptOrder (sent first) (sent second) (taken taker) result }
    {
        let Sender {
            mut pass,
            sender: _,
            number: _,
        } = first;
        let Sender {
            pass: other,
            sender: _,
            number: _,
        } = second;
        let Taker { pass: last } = taker;
        self.queue.absorb::<Joins>(&mut pass, other);
        self.queue.absorb::<Joins>(&mut pass, last);
        self.queue.len_as::<Takes, R>(rt, &mut pass) as u32
    }
}

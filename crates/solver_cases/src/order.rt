//! Questions on their way, on one thread and on three.
ghost use Rattle.std.specs.Prelude.{◌≡◌, []};
ghost use Rattle.question_desk.specs.Calls.{number_of, sent, IsSenderOf, IsTakerOf};

use alias_query::Question;
use pta_base::OutOfMemory;
use question_desk::{Ask, Desk, Full, Sender, Taker};
use std::alloc::Global;
use std::sync::Wait;
use std::test::Fail;
use std::thread::{Threads, join, yield_now};

/// How many questions each of two threads sends.
const COUNT: u32 = 1000;

#[test]
fn room_for_one(rt: HostRuntime) -> Result<(), Fail> {
    let (desk, mut first, second, mut taker) = Desk::new(rt.alloc(), 1)?;
    let question = Question::Points(1, 0);
    let other = Question::Alias(1, 1);
    desk.send(&rt, &mut first, question)?;
    let refused = desk.send(&rt, &mut first, other);
    assert!(rt; refused == Err(Full { question: other }));
    let ask = Ask {
        sender: 0,
        number: 0,
        question,
    };
    assert!(rt; desk.take(&rt, &mut taker) == Some(ask));
    assert!(rt; desk.take(&rt, &mut taker) == None);
    assert!(rt; desk.finish(&rt, first, second, taker) == 0);
    Ok(())
}

#[test]
fn what_is_left(rt: HostRuntime) -> Result<(), Fail> {
    let (desk, mut first, mut second, mut taker) = Desk::new(rt.alloc(), 3)?;
    let question = Question::Reaches(0, 2);
    desk.send(&rt, &mut second, question)?;
    desk.send(&rt, &mut first, question)?;
    desk.send(&rt, &mut second, question)?;
    let ask = Ask {
        sender: 1,
        number: 0,
        question,
    };
    assert!(rt; desk.take(&rt, &mut taker) == Some(ask));
    assert!(rt; desk.finish(&rt, first, second, taker) == 2);
    Ok(())
}

/// Sends the questions of one sender, and tries again while there is no room.
fn send_all<R: Wait>(rt: &R, desk: &Desk, mut sender: Sender) -> Sender
    requires own { IsSenderOf desk.now sender }
    requires none { sent sender ≡ [] }
    ensures own { IsSenderOf desk.now result }
    ensures number { number_of result ≡ number_of sender }
{
    let mut next = 0;
    for _ in rt.forever() {
        if next >= COUNT {
            break;
        }
        match desk.send(rt, &mut sender, Question::Points(next, 0)) {
            Ok(()) => next += 1,
            Err(_) => yield_now(),
        }
    }
    sender
}

/// Takes the questions of both senders, and says whether each came in its order.
fn take_all<R: Wait>(rt: &R, desk: &Desk, mut taker: Taker) -> (Taker, bool)
    requires { IsTakerOf desk.now taker }
    ensures { IsTakerOf desk.now result.0 }
{
    let mut next = [0u32; 2];
    let mut right = true;
    for _ in rt.forever() {
        if next[0] >= COUNT && next[1] >= COUNT {
            break;
        }
        match desk.take(rt, &mut taker) {
            Some(ask) => {
                let sender = (ask.sender % 2) as usize;
                let number = next[sender];
                right = right
                    && ask.number == number
                    && ask.question == Question::Points(number, 0);
                next[sender] = number.wrapping_add(1);
            }
            None => yield_now(),
        }
    }
    (taker, right)
}

/// Two threads send and a third takes: whether each sender's questions came in its order, and how many were left.
fn exchanged<R: Threads + Wait + Sync>(rt: &R, alloc: Global) -> Result<(bool, u32), OutOfMemory> {
    let (desk, first, second, taker) = Desk::new(alloc, 1)?;
    let line = &desk;
    let ((first, second), (taker, right)) = join(
        rt,
        move || -> (Sender, Sender)
            requires own { IsSenderOf line.now first × IsSenderOf line.now second }
            requires none { (sent first ≡ []) × (sent second ≡ []) }
            requires numbers { (number_of first ≡ 0) × (number_of second ≡ 1) }
            ensures own { IsSenderOf line.entry.now result.0 × IsSenderOf line.entry.now result.1 }
            ensures numbers { (number_of result.0 ≡ 0) × (number_of result.1 ≡ 1) }
        { send_both(rt, line, first, second) },
        move || -> (Taker, bool)
            requires { IsTakerOf line.now taker }
            ensures { IsTakerOf line.entry.now result.0 }
        { take_all(rt, line, taker) },
    );
    Ok((right, desk.finish(rt, first, second, taker)))
}

/// Sends the questions of both senders, each from a thread of its own.
fn send_both<R: Threads + Wait + Sync>(
    rt: &R,
    desk: &Desk,
    first: Sender,
    second: Sender,
) -> (Sender, Sender)
    requires own { IsSenderOf desk.now first × IsSenderOf desk.now second }
    requires none { (sent first ≡ []) × (sent second ≡ []) }
    ensures own { IsSenderOf desk.now result.0 × IsSenderOf desk.now result.1 }
    ensures number { (number_of result.0 ≡ number_of first) × (number_of result.1 ≡ number_of second) }
{
    join(
        rt,
        move || -> Sender
            requires { IsSenderOf desk.now first × (sent first ≡ []) }
            ensures { IsSenderOf desk.entry.now result × (number_of result ≡ number_of first) }
        { send_all(rt, desk, first) },
        move || -> Sender
            requires { IsSenderOf desk.now second × (sent second ≡ []) }
            ensures { IsSenderOf desk.entry.now result × (number_of result ≡ number_of second) }
        { send_all(rt, desk, second) },
    )
}

#[test]
fn three_threads(rt: HostRuntime) -> Result<(), Fail> {
    let (right, left) = exchanged(&rt, rt.alloc())?;
    assert!(rt; right);
    assert!(rt; left == 0);
    Ok(())
}

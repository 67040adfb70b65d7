//! The two askers.
ghost use Rattle.std.specs.Prelude.{◌≡◌, ◌+◌, ◌-◌, ◌^◌, ◌<◌, ◌≤◌, [], length};
ghost use Rattle.std.specs.Thread.{IsSync};
ghost use Rattle.question_desk.specs.Calls.{sent, IsSenderOf};

use crate::{Desk, Sender};
use alias_query::Question;
use pta_base::Gate;
use std::sync::Wait;
use std::sync::atomic::{AtomicU64, Ordering};
use std::thread::{Threads, join, yield_now};

/// How many times an asker tries to send one question.
const TRIES: u32 = 1_000_000;

/// The worker under whose number asker 0 passes the gate; asker 1 follows.
const ASKERS: u32 = 400;

/// What the askers share: the desk, the questions of a script, the gate, and the count of askers that have ended.
#[derive(Clone, Copy)]
pub(in crate::desk_rounds) struct Line<'a, G> {
    pub(in crate::desk_rounds) desk: &'a Desk,
    pub(in crate::desk_rounds) questions: &'a [Question],
    pub(in crate::desk_rounds) gate: &'a G,
    pub(in crate::desk_rounds) ended: &'a AtomicU64,
}

/// Sends a question, and tries again while there is no room. Whether it was sent.
fn is_sent<R: Wait>(rt: &R, desk: &Desk, sender: &mut Sender, question: Question) -> bool
    requires own { IsSenderOf desk.now sender.old }
    requires few { length (sent sender.old) < 2 ^ 32 - 1 }
    ensures own { IsSenderOf desk.now sender.new }
    ensures one { length (sent sender.new) ≤ length (sent sender.old) + 1 }
{
    for _ in 0..TRIES {
        match desk.send(rt, sender, question) {
            Ok(()) => return true,
            Err(_) => yield_now(),
        }
    }
    false
}

/// Sends an asker's questions in order, 2^32 - 1 at most: every second one of the script, from that of its own number on. Before its first
/// try to send a question it passes the gate, as worker number 400 and its own number with the number of the question among its own. It
/// sends nothing more after a question that it couldn't send.
fn send_share<R: Wait, G: Gate>(rt: &R, line: &Line<G>, sender: Sender, asker: u32)
    requires own { IsSenderOf line.now.desk.now sender }
    requires none { sent sender ≡ [] }
    requires asker { asker < 2 }
{
    let mut mine = sender;
    for number in 0..u32::MAX {
        let Some(question) = line.questions.get(number as usize * 2 + asker as usize) else {
            break;
        };
        line.gate.pass(ASKERS + asker, number);
        if !is_sent(rt, line.desk, &mut mine, *question) {
            break;
        }
    }
    line.ended.fetch_add(1, Ordering::SeqCst);
}

/// Both askers send, each from a thread of its own.
pub(in crate::desk_rounds) fn send_all<R: Threads + Wait + Sync, G: Gate + Sync>(
    rt: &R,
    line: &Line<G>,
    first: Sender,
    second: Sender,
)
    requires own { IsSenderOf line.now.desk.now first × IsSenderOf line.now.desk.now second }
    requires none { (sent first ≡ []) × (sent second ≡ []) }
{
    let Line {
        desk,
        questions,
        gate,
        ended,
    } = *line;
    join(
        rt,
        move ||
            requires sync { IsSync R.row × IsSync G.row }
            requires own { IsSenderOf desk.now first }
            requires none { sent first ≡ [] }
        {
            let line = Line {
                desk,
                questions,
                gate,
                ended,
            };
            send_share(rt, &line, first, 0)
        },
        move ||
            requires sync { IsSync R.row × IsSync G.row }
            requires own { IsSenderOf desk.now second }
            requires none { sent second ≡ [] }
        {
            let line = Line {
                desk,
                questions,
                gate,
                ended,
            };
            send_share(rt, &line, second, 1)
        },
    );
}

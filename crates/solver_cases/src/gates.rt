//! Gates that workers and askers pass.

use pta_base::Gate;
use std::sync::atomic::{AtomicU64, Ordering};
use std::thread::yield_now;

/// A gate that lets all pass.
pub(crate) struct Open;

impl Gate for Open {
    fn pass(&self, _worker: u32, _turn: u32) {}
}

/// A gate that holds two neighbours at their first turn until both have arrived, for so many tries at most.
#[derive(Drop)]
pub(crate) struct Both {
    lower: u32,
    first: AtomicU64,
    second: AtomicU64,
    late: AtomicU64,
}

impl Both {
    /// The gate for the one of this number and the next.
    pub(crate) fn new(lower: u32) -> Both {
        Both {
            lower,
            first: AtomicU64::new(0),
            second: AtomicU64::new(0),
            late: AtomicU64::new(0),
        }
    }

    /// Whether both came, and neither waited in vain.
    pub(crate) fn have_met(&self) -> bool {
        let first = self.first.load(Ordering::SeqCst);
        let second = self.second.load(Ordering::SeqCst);
        first == 1 && second == 1 && self.late.load(Ordering::SeqCst) == 0
    }
}

impl Gate for Both {
    fn pass(&self, worker: u32, turn: u32) {
        let (mine, other) = match (worker.checked_sub(self.lower), turn) {
            (Some(0), 0) => (&self.first, &self.second),
            (Some(1), 0) => (&self.second, &self.first),
            _ => return,
        };
        mine.store(1, Ordering::SeqCst);
        for _ in 0..1_000_000u32 {
            if other.load(Ordering::SeqCst) == 1 {
                return;
            }
            yield_now();
        }
        self.late.store(1, Ordering::SeqCst);
    }
}

/// A gate that notes whether a worker comes with another turn than the one after its last, or than 0 in a new round. There
/// is one worker, and so no other writer.
#[derive(Drop)]
pub(crate) struct Counted {
    next: AtomicU64,
    most: AtomicU64,
    wrong: AtomicU64,
}

impl Counted {
    pub(crate) fn new() -> Counted {
        Counted {
            next: AtomicU64::new(0),
            most: AtomicU64::new(0),
            wrong: AtomicU64::new(0),
        }
    }

    /// The highest turn that came; none where one was wrong.
    pub(crate) fn turns(&self) -> Option<u64> {
        if self.wrong.load(Ordering::SeqCst) == 0 {
            Some(self.most.load(Ordering::SeqCst))
        } else {
            None
        }
    }
}

impl Gate for Counted {
    fn pass(&self, worker: u32, turn: u32) {
        let next = self.next.load(Ordering::SeqCst);
        if worker > 0 || (turn > 0 && turn as u64 != next) {
            self.wrong.store(1, Ordering::SeqCst);
        }
        self.next.store(turn as u64 + 1, Ordering::SeqCst);
        if turn as u64 > self.most.load(Ordering::SeqCst) {
            self.most.store(turn as u64, Ordering::SeqCst);
        }
    }
}

/// How long a worker waits at a slow gate. Kind 0 is slowest for the first of 64 workers, kind 1 for the last; the others
/// have another number for each worker and each turn.
fn waits(kind: u32, worker: u32, turn: u32) -> u32 {
    let last = worker.min(63);
    match kind {
        0 => (63 - last) * (turn % 4 + 1) * 16,
        1 => last * (turn % 4 + 1) * 16,
        _ => {
            let mixed = worker
                .wrapping_mul(40_503)
                .wrapping_add(turn.wrapping_mul(9_973))
                .wrapping_add(kind)
                .wrapping_mul(2_654_435_761);
            (mixed >> 20) % 4_000
        }
    }
}

/// A gate that each worker passes slowly before each of its pieces: it looks at a number so many times. It counts how often
/// it was passed.
#[derive(Drop)]
pub(crate) struct Slow {
    kind: u32,
    passed: AtomicU64,
}

impl Slow {
    pub(crate) fn new(kind: u32) -> Slow {
        Slow {
            kind,
            passed: AtomicU64::new(0),
        }
    }

    /// How often it was passed.
    pub(crate) fn count(&self) -> u64 {
        self.passed.load(Ordering::SeqCst)
    }
}

impl Gate for Slow {
    fn pass(&self, worker: u32, turn: u32) {
        for _ in 0..waits(self.kind, worker, turn) {
            self.passed.load(Ordering::SeqCst);
        }
        self.passed.fetch_add(1, Ordering::SeqCst);
    }
}

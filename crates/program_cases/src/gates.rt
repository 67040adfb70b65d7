//! Gates for workers and askers.
use pta_base::Gate;
use std::sync::atomic::{AtomicU64, Ordering};
use std::thread::yield_now;

/// The worker under whose number the job of the first unit passes the gate.
pub(crate) const JOBS: u32 = 100;

/// A gate that holds two neighbours at their first turn until both have arrived, for so many tries at most, counts how often they pass, and
/// notes the highest worker of those that solve.
#[derive(Drop)]
pub(crate) struct Both {
    lower: u32,
    first: AtomicU64,
    second: AtomicU64,
    late: AtomicU64,
    passed: AtomicU64,
    highest: AtomicU64,
}

impl Both {
    /// A gate for the one of this number and the next, at which the second has been, or hasn't.
    pub(crate) fn new(lower: u32, second: u64) -> Both {
        Both {
            lower,
            first: AtomicU64::new(0),
            second: AtomicU64::new(second),
            late: AtomicU64::new(0),
            passed: AtomicU64::new(0),
            highest: AtomicU64::new(0),
        }
    }

    /// Whether both came, and neither waited in vain.
    pub(crate) fn have_met(&self) -> bool {
        let first = self.first.load(Ordering::SeqCst);
        let second = self.second.load(Ordering::SeqCst);
        [first, second, self.late.load(Ordering::SeqCst)] == [1, 1, 0]
    }

    /// How often the two passed.
    pub(crate) fn count(&self) -> u64 {
        self.passed.load(Ordering::SeqCst)
    }

    /// The highest worker of those that solve.
    pub(crate) fn highest(&self) -> u64 {
        self.highest.load(Ordering::SeqCst)
    }
}

impl Gate for Both {
    fn pass(&self, worker: u32, turn: u32) {
        if worker < JOBS {
            self.highest.fetch_max(u64::from(worker), Ordering::SeqCst);
        }
        let (mine, other) = match worker.checked_sub(self.lower) {
            Some(0) => (&self.first, &self.second),
            Some(1) => (&self.second, &self.first),
            _ => return,
        };
        self.passed.fetch_add(1, Ordering::SeqCst);
        if turn > 0 {
            return;
        }
        mine.store(1, Ordering::SeqCst);
        for _ in 0..1_000_000u32 {
            if other.load(Ordering::SeqCst) == 1 {
                return;
            }
            yield_now();
        }
        self.late.store(1, Ordering::SeqCst);
    }
}

/// A gate that holds worker 0 at its first piece until the asker has passed for its first try, for so many turns at most, and counts the
/// asker's tries.
#[derive(Drop)]
pub(crate) struct AskerFirst {
    workers: u32,
    asked: AtomicU64,
    late: AtomicU64,
    tries: AtomicU64,
}

impl AskerFirst {
    /// A gate for so many workers, behind whose numbers the asker's stands.
    pub(crate) fn new(workers: u32) -> AskerFirst {
        AskerFirst {
            workers,
            asked: AtomicU64::new(0),
            late: AtomicU64::new(0),
            tries: AtomicU64::new(0),
        }
    }

    /// Whether the asker came, whether the worker waited in vain, and the asker's tries.
    pub(crate) fn counts(&self) -> [u64; 3] {
        let asked = self.asked.load(Ordering::SeqCst);
        let late = self.late.load(Ordering::SeqCst);
        [asked, late, self.tries.load(Ordering::SeqCst)]
    }
}

impl Gate for AskerFirst {
    fn pass(&self, worker: u32, turn: u32) {
        if worker == self.workers {
            self.tries.fetch_add(1, Ordering::SeqCst);
            if turn == 0 {
                self.asked.store(1, Ordering::SeqCst);
            }
            return;
        }
        if worker > 0 || turn > 0 {
            return;
        }
        for _ in 0..1_000_000u32 {
            if self.asked.load(Ordering::SeqCst) == 1 {
                return;
            }
            yield_now();
        }
        self.late.store(1, Ordering::SeqCst);
    }
}

// What a worker passes before each piece of its work.

/// A gate before the pieces of a worker's work. The solver calls `pass` before each piece with the number of the worker,
/// counted from 0, and the number of its turn, counted from 0; a test may hold a worker there. No clause speaks of when
/// it is called.
pub trait Gate {
    fn pass(&self, worker: u32, turn: u32);
}

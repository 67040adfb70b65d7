// Calls that move a few bytes at a time.
ghost use Rattle.std.specs.Prelude.{◌≡◌};
ghost use Rattle.pta_base.specs.Steps.{within};

/// A count, or a bound on it where that is less.
pub(crate) fn within(step: Option<usize>, count: usize) -> usize
    ensures { result ≡ within step count }
{
    match step {
        Some(step) => step.min(count),
        None => count,
    }
}

//! Effects of library functions that sets cover (Andersen 1994).
ghost use Rattle.covering_laws.specs.covered_library.Laws.{EffectsCovered};

/// The effect of a library function of any number leaves a covered memory covered; its value is covered at the call, the pointers that it
/// stores at their places, and so are the arguments of a call back.
pub fn effects_covered()
    ensures { EffectsCovered }
{}

// What the library's effects leave.

ghost use Rattle.covering_laws.specs.calm_effects.Calm.{EffectCalm};

/// Where a library function calls back or keeps a function, its effect has left the memory as it was.
pub fn effect_is_calm()
    ensures { EffectCalm }
{}

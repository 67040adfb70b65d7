// What holds of every step: these functions do nothing, and their contracts are the laws.

ghost use Rattle.ref_machine.specs.Laws.{WordIsFree};

/// Where a step doesn't choose, its word has no influence.
pub fn word_is_free()
    ensures { WordIsFree }
{}

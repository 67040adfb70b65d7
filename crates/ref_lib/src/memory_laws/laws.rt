//! Memories that follow others: each instance stands in its place, the same object, and lives on unless the call ends it.
ghost use Rattle.ref_lib.specs.memory_laws.Laws.{NewFollows, TypedFollows, ZeroFollows, ClearFollows, EndFollows};
ghost use Rattle.ref_lib.specs.memory_laws.Laws.{PutFollows, PartsFollow, WriteFollows, EffectFollows};

/// A memory with a new instance follows.
pub fn new_follows()
    ensures { NewFollows }
{}

/// A memory where an instance without a type got one follows.
pub fn typed_follows()
    ensures { TypedFollows }
{}

/// A memory where an instance got the mark of zeros follows.
pub fn zero_follows()
    ensures { ZeroFollows }
{}

/// A memory where each cell of an instance became zero or null follows.
pub fn clear_follows()
    ensures { ClearFollows }
{}

/// A memory where an instance ended follows, and no other one has ended.
pub fn end_follows()
    ensures { EndFollows }
{}

/// A memory with parts put into an instance follows.
pub fn put_follows()
    ensures { PutFollows }
{}

/// A memory with parts put into an instance that gets a type where it has none follows.
pub fn parts_follow()
    ensures { PartsFollow }
{}

/// A memory with a value written into it follows.
pub fn write_follows()
    ensures { WriteFollows }
{}

/// What a library function leaves follows: an instance has ended only where `free` ends it, or `realloc` by an even word.
pub fn effect_follows()
    ensures { EffectFollows }
{}

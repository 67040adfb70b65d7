// What a call of a library function does to points-to sets.

/// One effect of a library function on points-to sets. Arguments are numbered from 1, and number 0 is the object that the
/// call gets from the function; objects of the library are numbered from 0.
#[derive(Clone, Copy, Debug, PartialEq, Eq)]
pub enum Effect {
    /// No effect.
    Nothing,
    /// The result has what the argument has.
    GivesArgument(u8),
    /// The result has the object of this call.
    GivesNew,
    /// The result has an object of the library.
    GivesObject(u8),
    /// The objects of the first argument get the contents of those of the second, as by an assignment of the whole.
    Copies(u8, u8),
    /// The objects of the first argument have what the second argument has.
    StoresInto(u8, u8),
    /// The functions of the argument are called back: with the two arguments named, or with none.
    CallsBack(u8, Option<(u8, u8)>),
}

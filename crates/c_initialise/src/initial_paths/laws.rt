//! That the values of initialisers go to parts of their objects.
ghost use Rattle.c_initialise.specs.initial_paths.Within.{InitialsWithin};

/// In the world that is seen at any node, each value that lasts of an initialiser goes to a part of an object of its type (C11 6.7.9), by a
/// path within the bounds of arrays, and a character of a string to an integer.
pub fn initials_within()
    ensures { InitialsWithin }
{}

//! That what an initialiser initialises lies within the object.
ghost use Rattle.c_initialise.specs.placed_paths.Within.{PlacesWithin};

/// Each value that lasts of an initialiser goes to a part of the object (C11 6.7.9): the path to it steps within the bounds of arrays, into
/// members that have a length, and a character of a string to an element of an array of characters. An array that gets its length from its
/// initialiser has all of them in it.
pub fn places_within()
    ensures { PlacesWithin }
{}

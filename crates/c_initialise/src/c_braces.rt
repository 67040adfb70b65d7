//! Braced lists of initialisers (C11 6.7.9): the initialiser as its grammar gives it, each over those before it (`tree`, `growing`), the
//! walk
//! over the items of braced lists, which puts what each of them initialises (`lists`), the length of an array without one
//! (`lengths`), what can be initialised at all (`shapes`), and the items that last (`items`).
pub mod growing;
pub mod items;
mod lengths;
pub mod lists;
mod paths;
pub mod shapes;
pub mod tree;

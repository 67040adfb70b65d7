//! Initialisers (C11 6.7.9). What an initialiser initialises of an object, in order, is a definition over the object's sub-objects
//! and the initialiser's tree. The calls go to the place of an item (`places`, over `cursor` and `designators`), put an expression
//! into an object (`filling`), and find the items that last (`items`); `laws` has what holds of the definitions alone.
#![tactic(auto)]

pub mod cursor;
pub mod designators;
pub mod filling;
pub mod items;
pub mod laws;
pub mod places;

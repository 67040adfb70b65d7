// One table for the types of several units.
pub mod join;
pub mod labels;
pub mod leaders;
pub mod starts;

//! What a unit is for sure that is made of the walk over its tree: definitions alone.

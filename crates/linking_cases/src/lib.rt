//! Parts of linking, and the locations of programs that are made by hand.
#![tactic(auto)]

#[cfg(test)]
mod beginnings;
#[cfg(test)]
mod fields;
#[cfg(test)]
mod locations;
#[cfg(test)]
mod numbering;
#[cfg(test)]
mod programs;
#[cfg(test)]
mod signatures;

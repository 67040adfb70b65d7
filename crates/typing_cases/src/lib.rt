//! Types, members and ways to them, constants and initialisers that are made by hand, and what is known of functions of the library, against
//! what C11 says of them and what GCC makes of them.
#![tactic(auto)]

#[cfg(test)]
mod constants;
#[cfg(test)]
mod fields;
#[cfg(test)]
mod initials;
#[cfg(test)]
mod library;
#[cfg(test)]
mod limits;
#[cfg(test)]
mod sizes;
#[cfg(test)]
mod spelling;
pub mod tagged;
#[cfg(test)]
mod ways;

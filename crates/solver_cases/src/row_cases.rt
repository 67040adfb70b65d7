//! The rows machine, a table of shared words and a book of edges on the smallest systems, step by step.
#[cfg(test)]
mod edges;
#[cfg(test)]
mod machine;
#[cfg(test)]
mod shared;
#[cfg(test)]
mod three;

//! That each run of a program is covered by the sets of its report: this function does nothing, and its contract is the law.
pub mod laws;

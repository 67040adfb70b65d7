// Generated programs.
#![tactic(auto)]

#[cfg(test)]
mod tests;
mod texts;

pub use texts::generate;

//! Whole programs: texts of C11 by the top call, against reports and refusals that were worked out on paper.
#![tactic(auto)]

#[cfg(test)]
mod calls;
#[cfg(test)]
mod effects;
#[cfg(test)]
mod entries;
#[cfg(test)]
mod failing;
#[cfg(test)]
mod gates;
#[cfg(test)]
mod generated;
#[cfg(test)]
mod long;
#[cfg(test)]
mod machine_runs;
#[cfg(test)]
mod outside;
#[cfg(test)]
mod rows;
#[cfg(test)]
mod runs;
#[cfg(test)]
mod scripts;
#[cfg(test)]
mod several;
#[cfg(test)]
mod stops;
#[cfg(test)]
mod tests;
#[cfg(test)]
mod together;

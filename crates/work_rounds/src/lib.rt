//! The least solution by rounds of workers on shared rows: in each round every row that has grown, and every row that edges
//! reach from one, is one piece, in an order along the edges (Pearce, Kelly and Hankin 2003, on the order of visits), and a
//! piece carries along the row's edges only what is new in it (2007, section 4). Between rounds new members bring new edges.
#![tactic(auto)]

pub mod laws;
mod solving;

pub use pta_base::Gate;
pub use solving::solve;

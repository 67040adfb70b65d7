// The external names of several units.
#![tactic(auto)]

pub mod declared;
pub mod defined;
pub mod entry;
pub mod fault;
pub mod faults;
pub mod firsts;
pub mod names;
pub mod scene;
mod shapes;
pub mod start;
pub mod together;
mod uses;
mod whole;

pub use declared::{Declared, Scene};
pub use fault::LinkFault;
pub use names::{Names, check_names};
pub use uses::is_before;

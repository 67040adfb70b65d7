//! The parts of a unit out of what its rows made: the nodes that stand under bodies, entities by number, and the places of their uses.
mod declared;
mod entities;
mod kept;
mod literals;
mod marks;
mod names;
mod renamed;
mod uses;

pub use declared::Declared;
pub use entities::entities_of;
pub use kept::{kept_nodes, new_number, numbers_of};
pub use literals::{LiteralAt, literals_in};
pub use marks::marks_under;
pub use names::{bodies_of, numbering, with_moved_bodies};
pub use renamed::rename_all;

// Where a library function calls back or keeps a function, it leaves the memory as it was.
pub mod laws;

pub use laws::effect_is_calm;

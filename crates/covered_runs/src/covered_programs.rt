//! That each run of a program that is linked from units is covered by the least sets: its library functions have the names that the machine
//! serves (`library_names`), what it allocates has its place (`allocation_laws`), and the machine's tables are the program's with terms behind
//! them (`served_worlds`). These functions do nothing, and their contracts are the laws.
pub mod allocation_laws;
pub mod laws;
pub mod library_names;
pub mod served_worlds;

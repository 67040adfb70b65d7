//! What the frames of a run stand on (`called_frames`), what its steps read and write, and the sets of what functions may touch (Banning
//! 1979): these functions do nothing, and their contracts are the laws.
pub mod called_frames;
pub mod laws;

// Numbers and words: the powers of ten, a number read, and bytes, words, numbers and fields written into a room.
#![tactic(auto)]

pub mod read;
pub mod tens;
pub mod write;

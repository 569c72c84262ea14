// The pieces of a text: the classes of pieces, and the longest piece at a place.
#![tactic(auto)]

mod bytes;
mod comments;
pub mod cuts;
mod marks;
pub mod numbers;
pub mod piece;
pub mod reader;
mod strings;

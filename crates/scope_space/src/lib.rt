// The namespaces of the libraries of a program.
#![tactic(auto)]

pub mod bound;
pub mod combinator;
pub mod declaration;
pub mod entry;
pub mod hand;
mod handed;
pub mod law;
pub mod library;
mod offer;
mod space;
pub mod spaces;
pub mod table;

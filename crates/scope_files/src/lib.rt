// Units from the files of a source, and from the texts of the language's libraries.
#![tactic(auto)]

pub mod check;
pub mod law;
pub mod reader;
pub mod text;

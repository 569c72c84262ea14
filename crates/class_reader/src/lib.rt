// The class declarations of a program, read from the trees of its units.
#![tactic(auto)]

pub mod build;
pub mod class;
pub mod enumeration;
pub mod field;
pub mod header;
pub mod home;
pub mod law;
pub mod member;
pub mod method;
pub mod position;
pub mod program;
pub mod signature;
pub mod standing;
pub mod state;

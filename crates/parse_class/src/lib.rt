// The code that reads type parameters, aliases, members and classes.
#![tactic(auto)]

pub mod alias;
pub mod class;
pub mod look;
pub mod member;
pub mod part;
pub mod type_parameter;

pub use parse_callable::accessor::accessor;
pub use parse_callable::function::function;

// What the bodies of a program are translated in, where classes are numbered as rows of its table.
#![tactic(auto)]

pub mod addition;
pub mod lookup;
pub mod mixin;
pub mod place;
pub mod row;
pub mod source;
pub mod table;

// What names and assignable expressions are read, called and written as.
#![tactic(auto, using(lower_leaf::proofs::Steps::steps), unfolding(translation::specs::Walk::on))]

pub mod call;
pub mod plain;
pub mod read;
pub mod reference;
pub mod select;
pub mod write;

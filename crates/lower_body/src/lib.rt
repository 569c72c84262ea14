// The core of whole classes.
#![tactic(auto, using(crate::proofs::Rest::steps), unfolding(translation::specs::Walk::on))]

pub mod accessor;
pub mod around;
pub mod class;
pub mod finish;
pub mod inside;
pub mod kept;
pub mod unnamed;

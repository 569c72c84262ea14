// The core of whole programs.
#![tactic(auto, using(crate::proofs::Rest::steps), unfolding(translation::specs::Walk::on))]

pub mod declaration;
pub mod member_name;
pub mod program;
pub mod reason;
pub mod table;

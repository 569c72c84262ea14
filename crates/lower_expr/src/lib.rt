// The core of expressions.
#![tactic(auto, using(crate::proofs::Rest::steps, crate::proofs::Trees::trees), unfolding(translation::specs::Walk::on))]

pub mod assign;
pub mod list;
pub mod lower;
pub mod object;
pub mod row;
pub mod selector;
pub mod text;

pub use lower_operand::condition::null;
pub use lower_operand::create::meeting_constant;
pub use lower_operand::literal::append;

// The core of functions, accessors and variables of libraries, and of static members.
#![tactic(auto, using(crate::proofs::Rest::steps, crate::proofs::Trees::trees), unfolding(translation::specs::Walk::on))]

pub mod declare;
pub mod native;
pub mod outermost;
pub mod standing;
pub mod variable;

pub use lower_stmt::body::block_of;
pub use lower_stmt::knot::function_literal;
pub use lower_stmt::{arguments, cascaded, expr, operand};

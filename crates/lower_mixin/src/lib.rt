// The core of mixin applications, and of what is added to the classes of a table.
#![tactic(auto, using(crate::proofs::Rest::steps), unfolding(translation::specs::Walk::on))]

pub mod apply;
pub mod forward;

pub use lower_decl::declare::{accessor, function};
pub use lower_decl::function_literal;
pub use lower_decl::standing::static_standing;
pub use lower_decl::variable::variables_declared;

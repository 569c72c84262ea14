// The core of statements, bodies and the functions inside them.
#![tactic(auto)]

pub mod attempt;
pub mod body;
pub mod choose;
pub mod iterate;
pub mod knot;
pub mod next;
pub mod part;
pub mod statement;
pub mod value;
pub mod variable;

pub use lower_expr::list::arguments;
pub use lower_expr::lower::{cascaded, expr, operand};
pub use lower_expr::meeting_constant;

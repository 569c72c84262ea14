// Trees from their parts, and copies of the leaves of trees: of names, of types and of what holds no expression.
#![tactic(auto)]

pub mod declaration;
pub mod leaf;
pub mod make;

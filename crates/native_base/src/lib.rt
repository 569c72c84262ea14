// What the natives of each family share: what a native does and leaves, and what it asks of its arguments.
#![tactic(auto)]

pub mod argument;
pub mod plan;

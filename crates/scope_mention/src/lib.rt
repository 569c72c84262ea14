// What a unit says of itself and which other units it mentions (ECMA-408, 18 Libraries and Scripts).
#![tactic(auto)]

pub mod head;
pub mod mention;
pub mod text;
mod written;

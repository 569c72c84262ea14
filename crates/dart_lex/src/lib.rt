// The lexis: from a text to its tokens, and back.
#![tactic(auto)]

pub mod lexer;
pub mod render;
#[cfg(test)]
mod tests;

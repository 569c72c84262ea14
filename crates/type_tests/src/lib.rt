// The relations between types, on worked examples.
#![tactic(auto)]

#[cfg(test)]
mod tests;

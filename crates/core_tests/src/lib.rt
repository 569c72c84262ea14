// Programs in the core language by hand, and the names, types and literals from which they are made.
#![tactic(auto)]

#[cfg(test)]
mod programs;
#[cfg(test)]
mod scopes;
#[cfg(test)]
mod strings;

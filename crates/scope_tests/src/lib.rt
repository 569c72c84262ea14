// Namespaces of libraries, and units and reasons of programs of several files.
#![tactic(auto)]

#[cfg(test)]
mod chain;
#[cfg(test)]
mod directive;
#[cfg(test)]
mod files;
#[cfg(test)]
mod load;
#[cfg(test)]
mod space;
#[cfg(test)]
mod whole;

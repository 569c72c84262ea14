// Each row of the natives' table, on both sides of its limits, and the steps that natives take.
#![tactic(auto)]

#[cfg(test)]
mod lists;
#[cfg(test)]
mod objects;
#[cfg(test)]
mod steps;
#[cfg(test)]
mod texts;
#[cfg(test)]
mod world;

// Orders, headers, tables and large types of worked programs.
#![tactic(auto)]

#[cfg(test)]
mod declared;
#[cfg(test)]
mod fault;
#[cfg(test)]
mod order;
#[cfg(test)]
mod size;
#[cfg(test)]
mod table;
#[cfg(test)]
mod valid;

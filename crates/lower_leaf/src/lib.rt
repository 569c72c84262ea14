// What the walks over trees share: their state, what is handed in, forms, names, types and first places.
#![tactic(auto)]

pub mod fault;
pub mod first;
pub mod form;
pub mod inner;
pub mod kept;
pub mod meaning;
pub mod name;
pub mod signature;
pub mod site;
pub mod state;
pub mod surroundings;
pub mod types;

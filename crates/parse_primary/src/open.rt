// What a primary is read with.
use dart_base::place::Place;
use dart_tree::expression::Primary;

/// A primary with the half of an operator behind it, if one was read.
pub type OpenPrimary = (Primary, Option<Place>);

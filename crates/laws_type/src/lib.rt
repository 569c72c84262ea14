// The readers of types find the types of the grammar. The crate runs nothing.
#![tactic(auto)]

ghost use Rattle.laws_type.specs.Statements.{TypesRead};

/// At every depth the readers of types, of lists of them, of type arguments and of results find the phrases of the grammar
/// and nothing else (ECMA-408, 19.1 Static Types).
pub fn types_read()
    ensures { TypesRead }
{}

// No list of tokens leaves a choice between two kinds of declarations, types go on behind names, and metadata grow with the depth. The
// crate runs nothing.
#![tactic(auto)]

ghost use Rattle.laws_choice.specs.Statements.{TypesGo, MetadataGrows, AliasesApart, CallChoice, CallablesApart};

/// At every depth a type that begins with a name goes on with `<` or with a dot, and one that is `get` or `set` alone leaves no name
/// behind it (ECMA-408, 19.1 Static Types).
pub fn types_go()
    ensures { TypesGo }
{}

/// Metadata of a depth are metadata of the next one, and begin those if they begin theirs; of the next one just those that are less high
/// are of this depth (ECMA-408, 15 Metadata).
pub fn metadata_grows()
    ensures { MetadataGrows }
{}

/// At every depth no list of tokens is an alias with a result and begins one without past that, or the other way round, and none is
/// both (ECMA-408, 19.3.1 Typedef).
pub fn aliases_apart()
    ensures { AliasesApart }
{}

/// At every depth no list of tokens is a function and begins an accessor past that, or the other way round, and none is both (ECMA-408,
/// 9 Functions, 10.2 Getters, 10.3 Setters).
pub fn call_choice()
    ensures { CallChoice }
{}

/// At every depth no list of tokens is a function or an accessor and begins variables past that, or the other way round, and none is
/// both (ECMA-408, 8 Variables, 9 Functions, 10.2 Getters, 10.3 Setters).
pub fn callables_apart()
    ensures { CallablesApart }
{}

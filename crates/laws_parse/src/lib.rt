// The readers of directives, declarations and units find those of the grammar, by the laws of all that stands inside; and what is found on a
// list of tokens is its answer. The crate runs nothing.
#![tactic(auto)]

ghost use Rattle.laws_parse.specs.Statements.{PartsRead, DirectivesReadAll, HeadsReadAll, InitsReadAll, MemberKindsReadAll, AliasesReadAll, ClassesReadAll, CallablesReadAll, DeclKindsReadAll, UnitsReadAll, FoundAnswers};

/// At every depth the readers of strings, metadata, types, parameters, arguments, conditional expressions with cascades, initialisers, bodies
/// and of a result with a name find those of the grammar and nothing else, and what goes on behind each stays apart from what directives, heads
/// and members have there (ECMA-408, 16.5 Strings, 15 Metadata, 19.1 Static Types, 9.2 Formal Parameters, 10.6.1 Generative Constructors).
pub fn parts_read()
    ensures { PartsRead }
{}

/// At every depth the readers of directives, behind their metadata, find those of the grammar and nothing else (ECMA-408, 18 Libraries and
/// Scripts, 18.1 Imports, 18.2 Exports, 18.3 Parts).
pub fn directives_read_all()
    ensures { DirectivesReadAll }
{}

/// At every depth the readers of type parameters, of superclasses, of mixins and interfaces, and of enums find those of the grammar and
/// nothing else (ECMA-408, 10.9 Superclasses, 10.10 Superinterfaces, 13 Enums, 14 Generics).
pub fn heads_read_all()
    ensures { HeadsReadAll }
{}

/// At every depth the reader of an initialiser finds those of the grammar and nothing else (ECMA-408, 10.6.1 Generative Constructors).
pub fn inits_read_all()
    ensures { InitsReadAll }
{}

/// At every depth the readers of declared functions, of what stands behind an accessor's result, of an operator's name, and of constant and
/// redirecting constructors and of factories find those of the grammar and nothing else (ECMA-408, 9 Functions, 10.1.1 Operators, 10.2
/// Getters, 10.3 Setters, 10.6.1 to 10.6.3).
pub fn member_kinds_read_all()
    ensures { MemberKindsReadAll }
{}

/// At every depth the reader of aliases finds those of the grammar and nothing else (ECMA-408, 19.3.1 Typedef).
pub fn aliases_read_all()
    ensures { AliasesReadAll }
{}

/// At every depth the reader of classes finds those of the grammar and nothing else, where that of the members does (ECMA-408, 10 Classes, 12.1
/// Mixin Application).
pub fn classes_read_all()
    ensures { ClassesReadAll }
{}

/// At every depth the readers of declared functions and accessors, of which both are tried, find one of the two of the grammar and nothing else
/// (ECMA-408, 9 Functions, 10.2 Getters, 10.3 Setters).
pub fn callables_read_all()
    ensures { CallablesReadAll }
{}

/// At every depth the reader of declarations, behind their metadata, finds those of the grammar and nothing else, where that of the members does
/// at every depth (ECMA-408, 18 Libraries and Scripts).
pub fn decl_kinds_read_all()
    ensures { DeclKindsReadAll }
{}

/// At every depth the reader of units finds those of the grammar and nothing else, where that of the members does at every depth (ECMA-408, 18
/// Libraries and Scripts).
pub fn units_read_all()
    ensures { UnitsReadAll }
{}

/// What is found on a list of tokens within the limits of depth, 200 nodes above one another and 300 to tell what is too deep, is its answer:
/// the one unit that it forms; or what the profile leaves out; or the first token that is too deep or wrong; or its end; where the
/// reader of members finds those of the grammar at every depth (ECMA-408, 18 Libraries and Scripts).
pub fn found_answers()
    ensures { FoundAnswers }
{}

// The readers of directives, declarations and units find those of the grammar, where the readers of what stands inside do. The crate runs
// nothing.
#![tactic(auto)]

ghost use Rattle.laws_unit.specs.Mending.{MendedRead};
ghost use Rattle.laws_unit.specs.Members.{FactoriesRead, GenerativesFound, MembersRead, OtherMembersRead};
ghost use Rattle.laws_unit.specs.Statements.{DirectivesRead, HeadsRead, AliasesRead, ClassesRead, InitsRead, MemberKindsRead, CallablesRead, DeclKindsRead, UnitsRead, UnitsAnswered};

/// At every depth the readers of directives, behind their metadata, find those of the grammar and nothing else, where that of the strings
/// inside does (ECMA-408, 18 Libraries and Scripts, 18.1 Imports, 18.2 Exports, 18.3 Parts).
pub fn directives_read()
    ensures { DirectivesRead }
{}

/// At every depth the readers of type parameters, of superclasses, of mixins and interfaces, and of enums find those of the grammar and
/// nothing else, where those of the metadata and types inside do (ECMA-408, 10.9 Superclasses, 10.10 Superinterfaces, 13 Enums, 14 Generics).
pub fn heads_read()
    ensures { HeadsRead }
{}

/// At every depth the reader of aliases finds those of the grammar and nothing else, where those of the metadata, types and parameters
/// inside do, and where no list of tokens leaves a choice between one with a result and one without (ECMA-408, 19.3.1 Typedef).
pub fn aliases_read()
    ensures { AliasesRead }
{}

/// At every depth the reader of classes finds those of the grammar and nothing else, where those of the members, metadata and types inside
/// do (ECMA-408, 10 Classes, 12.1 Mixin Application).
pub fn classes_read()
    ensures { ClassesRead }
{}

/// At every depth the reader of an initialiser finds those of the grammar and nothing else, where those of the arguments and of the
/// conditional expressions with cascades inside do (ECMA-408, 10.6.1 Generative Constructors).
pub fn inits_read()
    ensures { InitsRead }
{}

/// At every depth the readers of declared functions, of what stands behind an accessor's result, and of constant and redirecting constructors
/// and of factories find those of the grammar and nothing else, where those of the parameters, arguments, initialisers, names with their
/// results and bodies inside do (ECMA-408, 9 Functions, 10.2 Getters, 10.3 Setters, 10.6.1 to 10.6.3).
pub fn member_kinds_read()
    ensures { MemberKindsRead }
{}

/// At every depth the readers of declared functions and accessors, of which both are tried, find one of the two of the grammar and nothing else,
/// where those of parameters, bodies, types, and of a result with a name do, where types go on behind names as they should, and where
/// no list of tokens leaves a choice between the two (ECMA-408, 9 Functions, 10.2 Getters, 10.3 Setters).
pub fn callables_read()
    ensures { CallablesRead }
{}

/// At every depth the readers of redirecting factories, and of factories of both kinds, of which both are tried, find those of the grammar and
/// nothing else, where those of types, and of the parameters, bodies and names with their results inside do (ECMA-408, 10.6.2 Factories).
pub fn factories_read()
    ensures { FactoriesRead }
{}

/// At every depth what the reader of generative constructors reads is one of the grammar, and each of those is read as itself unless it goes on,
/// where the readers of initialisers, parameters and blocks inside find theirs, and where initialisers close the braces that they open
/// (ECMA-408, 10.6.1 Generative Constructors). Where a list is none, it may stop earlier than it should.
pub fn generatives_found()
    ensures { GenerativesFound }
{}

/// At every depth the reader of members that are no constructors finds functions, accessors, variables and operators, with `static`,
/// `external` or neither, and nothing else, where those of what stands inside do, where types go on behind names as they should, and where
/// no list of tokens leaves a choice (ECMA-408, 8 Variables, 10 Classes, 10.1.1 Operators).
pub fn other_members_read()
    ensures { OtherMembersRead }
{}

/// At every depth the reader of members with their metadata finds those of the grammar and nothing else, where those of metadata, of generative
/// constructors, of what the other constructors are made of and of the other members do, and where no list of tokens leaves a choice but
/// between a constructor and another member, neither of which goes on (ECMA-408, 10 Classes, 10.6 Constructors).
pub fn members_read()
    ensures { MembersRead }
{}

/// At every depth a reader of generative constructors finds those of the grammar and nothing else, if it takes for a constructor's own block, where
/// the first try stops, the last brace outside all brackets before that place, and where the readers of initialisers, parameters and
/// blocks inside find theirs (ECMA-408, 10.6.1 Generative Constructors). It is not the reader in use.
pub fn mended_read()
    ensures { MendedRead }
{}

/// At every depth the reader of declarations, behind their metadata, finds those of the grammar and nothing else, where those of classes,
/// aliases, variables and of functions with accessors do, and where no list of tokens leaves a choice between variables and one of the last
/// (ECMA-408, 18 Libraries and Scripts).
pub fn decl_kinds_read()
    ensures { DeclKindsRead }
{}

/// At every depth the reader of units finds those of the grammar and nothing else, directives and declarations in their order, where those
/// of the declarations, metadata and strings inside do, and where metadata that are less high than a depth are those of the depth below
/// (ECMA-408, 18 Libraries and Scripts).
pub fn units_read()
    ensures { UnitsRead }
{}

/// What is found on a list of tokens is its answer: the one unit that it forms; or what the profile leaves out; or the first token with which
/// no unit begins, which is too deep where a unit of the further depth goes on there, and else wrong; or its end. So it is at two depths at
/// which the reader of units finds those of the grammar (ECMA-408, 18 Libraries and Scripts).
pub fn units_answered()
    ensures { UnitsAnswered }
{}

// Units and their directives.
use crate::declaration::Decl;
use crate::expression::StringPiece;
use crate::identifier::{CommaName, DotName, Identifier};
use crate::parameter::Annotation;
use dart_base::place::Place;

/// What a file holds: a library or a part of one (ECMA-408, 18 Libraries and Scripts).
#[derive(Drop)]
pub struct Unit {
    pub directives: Vec<Directive>,
    pub declarations: Vec<Decl>,
}

/// A directive, with its metadata (ECMA-408, 18 Libraries and Scripts).
#[derive(Drop)]
pub struct Directive {
    pub metadata: Vec<Annotation>,
    pub kind: DirectiveKind,
    pub semicolon: Place,
}

/// What a directive says (ECMA-408, 18 Libraries and Scripts).
#[derive(Drop)]
pub enum DirectiveKind {
    /// `part of a.b;` (18.3 Parts)
    PartOf {
        word: Place,
        of_word: Place,
        name: Identifier,
        more: Vec<DotName>,
    },
    /// `library a.b;` (18 Libraries and Scripts)
    Library {
        word: Place,
        name: Identifier,
        more: Vec<DotName>,
    },
    /// `import 'a' as b show c;` (18.1 Imports)
    Import {
        word: Place,
        uri: Vec<StringPiece>,
        prefix: Option<Prefix>,
        combinators: Vec<Combinator>,
    },
    /// `export 'a' hide b;` (18.2 Exports)
    Export {
        word: Place,
        uri: Vec<StringPiece>,
        combinators: Vec<Combinator>,
    },
    /// `part 'a';` (18.3 Parts)
    Part(Place, Vec<StringPiece>),
}

/// `as a`, the prefix of an import (ECMA-408, 18.1 Imports).
#[derive(Drop)]
pub struct Prefix {
    pub word: Place,
    pub name: Identifier,
}

/// Whether a combinator keeps its names or drops them (ECMA-408, 18.1 Imports and 18.2 Exports).
#[derive(Clone, Copy, Debug, PartialEq, Eq)]
pub enum CombinatorKind {
    /// `show`
    Show,
    /// `hide`
    Hide,
}

/// `show a, b` or `hide a, b` (ECMA-408, 18.1 Imports and 18.2 Exports).
#[derive(Drop)]
pub struct Combinator {
    pub kind: CombinatorKind,
    pub word: Place,
    pub first: Identifier,
    pub more: Vec<CommaName>,
}

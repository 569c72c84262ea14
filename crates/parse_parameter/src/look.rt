// Which tokens begin parameters, and where a second try stops.
ghost use Rattle.std.specs.Prelude.{◌≡◌, if◌then◌else◌};
ghost use Rattle.dart_syntax.specs.Types.{is_no_accessor, kind_leaves_name, result_leaves_name};
ghost use Rattle.dart_tree.specs.LeafTokens.{left_of, right_of};
ghost use Rattle.dart_tree.specs.View as view;
ghost use Rattle.grammar_laws.specs.Readers.{starts};
ghost use Rattle.parse_parameter.specs.Views.{declaring_first, variables_first};
ghost use Rattle.parse_type.specs.Views.{later};
ghost use Rattle.syntax_readers.specs.Parameters.{parameter_first, optional_first, kind_comes};
ghost use Rattle.token_codes.specs.Codes.{class_of};

use dart_token::sign::Sign;
use dart_token::word::Word;
use dart_tree::identifier::Identifier;
use dart_tree::parameter::{BracketKind, VariableKind};
use dart_tree::types::{ResultType, TypeArguments, TypeNode};
use parse_type::look::type_comes;
use token_cursor::cursor::Cursor;

/// Moves a cursor that is stuck to where a second try stopped, if that read something or came as far.
pub fn settle<'a>(cursor: &mut Cursor<'a>, second: &Cursor<'a>, reads: bool)
    ensures { cursor.new ≡ (if reads then second.now else later cursor.old second.now) }
{
    if reads || second.left() <= cursor.left() {
        *cursor = second.fork();
    }
}

/// Whether the word of variables comes (ECMA-408, 8 Variables).
pub fn sees_variables(cursor: &Cursor<'_>) -> bool
    ensures { result ≡ starts class_of variables_first cursor.now }
{
    cursor.sees_word(Word::Var) || cursor.sees_word(Word::Final) || cursor.sees_word(Word::Const)
}

/// Whether a word comes that begins variables or what a function answers with (ECMA-408, 8 Variables and 9 Functions).
pub fn sees_declaring(cursor: &Cursor<'_>) -> bool
    ensures { result ≡ starts class_of declaring_first cursor.now }
{
    cursor.sees_word(Word::Var)
        || cursor.sees_word(Word::Final)
        || cursor.sees_word(Word::Const)
        || cursor.sees_word(Word::Void)
        || cursor.sees_word(Word::Dynamic)
}

/// Whether a bracket comes that encloses optional parameters (ECMA-408, 9.2.2 Optional Formals).
pub fn sees_optional(cursor: &Cursor<'_>) -> bool
    ensures { result ≡ starts class_of optional_first cursor.now }
{
    cursor.sees(Sign::LeftBracket) || cursor.sees(Sign::LeftBrace)
}

/// Whether a parameter comes (ECMA-408, 9.2 Formal Parameters).
#[tactic(auto, using(crate::proofs::Looking::starts_parameter))]
pub fn sees_parameter(cursor: &Cursor<'_>) -> bool
    ensures { result ≡ starts class_of parameter_first cursor.now }
{
    cursor.sees(Sign::AtSign)
        || cursor.sees_word(Word::Var)
        || cursor.sees_word(Word::Final)
        || cursor.sees_word(Word::Void)
        || cursor.sees_word(Word::This)
        || cursor.sees_word(Word::Dynamic)
        || cursor.sees_name()
}

/// Whether `var`, `final` or a type comes, and not only the name behind it.
#[tactic(auto, using(crate::proofs::Looking::kind_starts))]
pub fn sees_kind(cursor: &Cursor<'_>) -> bool
    ensures { result ≡ kind_comes cursor.now }
{
    cursor.sees_word(Word::Var) || cursor.sees_word(Word::Final) || type_comes(cursor)
}

/// The sign that opens optional parameters (ECMA-408, 9.2.2 Optional Formals).
pub fn opening_sign(kind: BracketKind) -> Sign
    ensures { result ≡ left_of kind }
{
    match kind {
        BracketKind::Square => Sign::LeftBracket,
        BracketKind::Curly => Sign::LeftBrace,
    }
}

/// The sign that closes optional parameters (ECMA-408, 9.2.2 Optional Formals).
pub fn closing_sign(kind: BracketKind) -> Sign
    ensures { result ≡ right_of kind }
{
    match kind {
        BracketKind::Square => Sign::RightBracket,
        BracketKind::Curly => Sign::RightBrace,
    }
}

// Whether a type is more than `get` or `set`, which are the words of accessors before a name.
fn is_no_accessor(tree: &TypeNode) -> bool
    ensures { result ≡ is_no_accessor (view.type_node tree.now) }
{
    match tree {
        TypeNode::Named {
            name: Identifier::Get(_) | Identifier::Set(_),
            member: None,
            arguments: TypeArguments::Omitted,
        } => false,
        _ => true,
    }
}

/// Whether a name may stand behind what is declared of a variable (ECMA-408, 8 Variables).
pub fn kind_leaves_name(tree: &VariableKind) -> bool
    ensures { result ≡ kind_leaves_name (view.variable_kind tree.now) }
{
    match tree {
        VariableKind::Typed(type_node) => is_no_accessor(type_node),
        _ => true,
    }
}

/// Whether a name may stand behind what a function answers with (ECMA-408, 9 Functions).
pub fn result_leaves_name(tree: &Option<ResultType>) -> bool
    ensures { result ≡ result_leaves_name (view.result_option tree.now) }
{
    match tree {
        Some(ResultType::Typed(type_node)) => is_no_accessor(type_node),
        _ => true,
    }
}

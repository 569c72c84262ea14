// The table of the names of a program.
ghost use Rattle.std.specs.Prelude.{◌≡◌, ◌++◌, [], IfOk, OnOk, fold, map, codes, decimal};
ghost use Rattle.std.specs.List.{take_while};
ghost use Rattle.dart_erase.specs.UnitErased as erased;
ghost use Rattle.dart_pieces.specs.Bytes.{is_name_byte};
ghost use Rattle.dart_tree.specs.UnitView as view;
ghost use Rattle.scope_declared.specs.Number.{is_private};
ghost use Rattle.scope_name.specs.Names.{given_names, kept_names, names_of, with_identifier, with_piece, with_shown, with_text, with_token, with_unit, with_units};

use crate::shown::name_at_front;
use dart_base::names::Names;
use dart_erase::unit::erase;
use dart_token::token::{Token, TokenKind};
use dart_tree::unit::Unit;
use dart_unparse::tokens;
use std::alloc::{AllocError, Global};
use std::str::from_utf8;

/// What a table of names has first, so that each of these has one number in all programs: the operators (ECMA-408, 10.1.1
/// Operators), the built-in identifiers that may name something (16.33 Identifier Reference), what a class has that stands
/// for an enum (13 Enums), and what is asked for by name. Then comes what translation asks for and a program need not spell:
/// the name of a function literal, which is empty (16.10 Function Expressions), the parameter of the setter that a variable
/// has (8 Variables), the type `dynamic` where an object of it is to be made (16.12 Instance Creation), and the operators that
/// no class declares.
pub const GIVEN: [&str; 37] = [
    "unary-",
    "[]",
    "[]=",
    "==",
    "<",
    ">",
    "<=",
    ">=",
    "-",
    "+",
    "/",
    "~/",
    "*",
    "%",
    "|",
    "^",
    "&",
    "<<",
    ">>",
    "~",
    "get",
    "set",
    "index",
    "enum",
    "toString",
    "values",
    "call",
    "main",
    "noSuchMethod",
    "",
    "v",
    "dynamic",
    "!",
    "!=",
    "&&",
    "||",
    ">>=",
];

// Gives the text a number. A table that has all the numbers there are is too large for memory.
fn add_text(names: &mut Names, text: &[u8]) -> Result<(), AllocError>
    ensures { OnOk result (names.new ≡ with_text names.old text.now) }
{
    let Ok(text) = from_utf8(text) else {
        return Ok(());
    };
    if names.count() == u32::MAX {
        return Err(AllocError);
    }
    names.intern(text)?;
    Ok(())
}

fn is_private(text: &[u8]) -> bool
    ensures { result ≡ is_private text.now }
{
    match text.first() {
        None => false,
        Some(first) => *first == b'_',
    }
}

// What stands in the table for a private identifier.
fn private_text(alloc: Global, library: u32, text: &[u8]) -> Result<Vec<u8>, AllocError>
    ensures { IfOk result (λ made. made.items ≡ text.now ++ (codes "@" ++ decimal library)) }
{
    let suffix = format!(in alloc; "@{library}")?;
    let mut made = Vec::from_slice(alloc, text)?;
    made.extend_from_slice(suffix.as_bytes())?;
    Ok(made)
}

// Gives an identifier of the library a number.
fn add_identifier(
    alloc: Global,
    names: &mut Names,
    library: u32,
    text: &[u8],
) -> Result<(), AllocError>
    ensures { OnOk result (names.new ≡ with_identifier library names.old text.now) }
{
    if is_private(text) {
        let private = private_text(alloc, library, text)?;
        add_text(names, &private)
    } else {
        add_text(names, text)
    }
}

// Gives the name that a text behind a `$` begins with, if there is one, a number.
fn add_shown(alloc: Global, names: &mut Names, library: u32, text: &[u8]) -> Result<(), AllocError>
    ensures { OnOk result (names.new ≡ with_shown library names.old (take_while is_name_byte text.now)) }
{
    match name_at_front(text) {
        [] => Ok(()),
        name => add_identifier(alloc, names, library, name),
    }
}

// Gives each name in a piece of a string a number.
fn add_piece(alloc: Global, names: &mut Names, library: u32, text: &[u8]) -> Result<(), AllocError>
    ensures { OnOk result (names.new ≡ with_piece library names.old text.now) }
{
    for (index, b) in text.iter().enumerate() {
        if *b == b'$' {
            add_shown(alloc, names, library, &text[index + 1..])?;
        }
    }
    Ok(())
}

fn add_token(
    alloc: Global,
    names: &mut Names,
    library: u32,
    token: &Token,
) -> Result<(), AllocError>
    ensures { OnOk result (names.new ≡ with_token library names.old token.now) }
{
    match token.kind {
        TokenKind::Identifier => add_identifier(alloc, names, library, token.lexeme.as_slice()),
        TokenKind::Whole | TokenKind::Head(_) | TokenKind::Middle | TokenKind::Tail => {
            add_piece(alloc, names, library, token.lexeme.as_slice())
        }
        TokenKind::Word(_) | TokenKind::Integer | TokenKind::Sign(_) => Ok(()),
    }
}

// Gives the identifiers of a unit of the library, and the names in its strings, numbers.
#[tactic(auto, unfolding(crate::specs::Names::with_unit))]
fn add_unit(alloc: Global, names: &mut Names, library: u32, unit: &Unit) -> Result<(), AllocError>
    ensures { OnOk result (names.new ≡ with_unit library names.old (view.unit unit.now)) }
{
    let tokens = tokens(alloc, unit)?;
    for token in &tokens {
        add_token(alloc, names, library, token)?;
    }
    Ok(())
}

fn add_units(
    alloc: Global,
    names: &mut Names,
    homes: &[u32],
    units: &[Unit],
) -> Result<(), AllocError>
    ensures { OnOk result (names.new ≡ with_units names.old homes.now (map view.unit units.now)) }
{
    match homes {
        [] => Ok(()),
        [library, homes @ ..] => match units {
            [] => Ok(()),
            [unit, units @ ..] => {
                add_unit(alloc, names, *library, unit)?;
                add_units(alloc, names, homes, units)
            }
        },
    }
}

// The same of units without their annotations, of each of which a copy is made and let go.
fn add_kept(
    alloc: Global,
    names: &mut Names,
    homes: &[u32],
    units: &[Unit],
) -> Result<(), AllocError>
    ensures { OnOk result (names.new ≡ with_units names.old homes.now (map erased.unit (map view.unit units.now))) }
{
    match homes {
        [] => Ok(()),
        [library, homes @ ..] => match units {
            [] => Ok(()),
            [unit, units @ ..] => {
                let kept = erase(alloc, unit)?;
                add_unit(alloc, names, *library, &kept)?;
                add_kept(alloc, names, homes, units)
            }
        },
    }
}

fn add_texts(names: &mut Names, texts: &[&str]) -> Result<(), AllocError>
    ensures { OnOk result (names.new ≡ fold with_text names.old (map (λ text. text.now) texts.now)) }
{
    for text in texts {
        add_text(names, text.as_bytes())?;
    }
    Ok(())
}

// The table before any unit.
#[tactic(auto, unfolding(crate::specs::Names::given_names))]
fn given(alloc: Global) -> Result<Names, AllocError>
    ensures { IfOk result (λ names. names ≡ given_names) }
{
    let mut names = Names::new(alloc);
    add_texts(&mut names, &GIVEN)?;
    Ok(names)
}

/// The names of a program with these units, each of which belongs to the library of the number beside it (ECMA-408, 6.2
/// Privacy, 16.33 Identifier Reference): what every table has, and then the identifiers, and the names that stand in strings
/// behind a `$` (16.5.1 String Interpolation), in the order of units and tokens. A private one has `@` and the library's number
/// behind it. In a raw string, or escaped, `$` counts too.
pub fn names_of(alloc: Global, homes: &[u32], units: &[Unit]) -> Result<Names, AllocError>
    ensures { IfOk result (λ names. names ≡ names_of homes.now (map view.unit units.now)) }
{
    let mut names = given(alloc)?;
    add_units(alloc, &mut names, homes, units)?;
    Ok(names)
}

/// The names that the units have without the annotations that change nothing (ECMA-408, 19 Types), as `names_of` has them.
pub fn kept_names(alloc: Global, homes: &[u32], units: &[Unit]) -> Result<Names, AllocError>
    ensures { IfOk result (λ names. names ≡ kept_names homes.now (map view.unit units.now)) }
{
    let mut names = given(alloc)?;
    add_kept(alloc, &mut names, homes, units)?;
    Ok(names)
}

/// A table with these names, and behind them what else the units spell.
pub fn with_names(
    alloc: Global,
    kept: &Names,
    homes: &[u32],
    units: &[Unit],
) -> Result<Names, AllocError>
    ensures { IfOk result (λ names. names ≡ with_units kept.now homes.now (map view.unit units.now)) }
{
    let mut names = kept.try_clone(alloc)?;
    add_units(alloc, &mut names, homes, units)?;
    Ok(names)
}

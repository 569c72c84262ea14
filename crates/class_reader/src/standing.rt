// What decides whether headers may name a class.
ghost use Rattle.std.specs.Prelude.{◌≡◌, [], bytes_eq, map, IfOk};
ghost use Rattle.std.specs.List.{list_any};
ghost use Rattle.dart_token.specs.declared.token.Token.{Token};
ghost use Rattle.dart_tree.specs.UnitView as unit_view;
ghost use Rattle.class_source.specs.Members as m;
ghost use Rattle.class_source.specs.Source as source;
ghost use Rattle.class_reader.specs.Given.{source_unit};

use crate::home::Home;
use class_fault::program::Standing;
use class_source::standing::{has_constructor, has_external};
use dart_erase::erase_member;
use dart_token::token::{Token, TokenKind};
use dart_token::word::Word;
use dart_tree::declaration::Member;
use dart_unparse::member_tokens;
use std::alloc::{AllocError, Global};

// Whether a class of `dart:core` of this name may not be named by a class of a user's file.
fn is_basic_name(name: &[u8]) -> bool
    ensures { result ≡ list_any (bytes_eq name.now) source.basic_names }
{
    name == b"int".as_slice()
        || name == b"num".as_slice()
        || name == b"double".as_slice()
        || name == b"String".as_slice()
        || name == b"bool".as_slice()
        || name == b"Null".as_slice()
}

// Whether it is one of these classes, in a unit of this home.
fn is_basic(home: Home, name: &[u8]) -> bool
    ensures { result ≡ source.is_basic (source_unit home []) name.now }
{
    home.is_core && is_basic_name(name)
}

fn is_super(token: &Token) -> bool
    ensures { result ≡ m.is_super token.now.kind }
{
    match token.kind {
        TokenKind::Word(Word::Super) => true,
        _ => false,
    }
}

fn has_super(tokens: &[Token]) -> bool
    ensures { result ≡ list_any (λ (token : Token). m.is_super token.kind) tokens.now }
{
    tokens.iter().any(|token| is_super(token))
}

// Whether the word `super` stands in a member without its annotations.
fn member_names_super(alloc: Global, member: &Member) -> Result<bool, AllocError>
    ensures { IfOk result (λ made. made ≡ m.names_super (unit_view.member member.now)) }
{
    let bare = erase_member(alloc, member)?;
    let tokens = member_tokens(alloc, &bare)?;
    Ok(has_super(&tokens))
}

// Whether the word `super` stands in one of the members.
fn names_super(alloc: Global, members: &[Member]) -> Result<bool, AllocError>
    ensures { IfOk result (λ made. made ≡ list_any m.names_super (map unit_view.member members.now)) }
{
    for member in members {
        if member_names_super(alloc, member)? {
            return Ok(true);
        }
    }
    Ok(false)
}

/// What decides whether headers may name a class of this name and with these members.
pub fn standing(
    alloc: Global,
    home: Home,
    name: &[u8],
    members: &[Member],
) -> Result<Standing, AllocError>
    ensures { IfOk result (λ made. made ≡ source.standing (source_unit home []) name.now (map unit_view.member members.now)) }
{
    let names_super = names_super(alloc, members)?;
    Ok(Standing {
        is_user: home.is_user,
        is_basic: is_basic(home, name),
        has_external: has_external(members),
        has_constructor: has_constructor(members),
        names_super,
    })
}

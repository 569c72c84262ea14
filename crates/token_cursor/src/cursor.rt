// A cursor over tokens.
ghost use Rattle.std.specs.Prelude.{◌≡◌, [], ◌∷◌, ◌<◌, drop, length, take};
ghost use Rattle.grammar_laws.specs.Codes.{has};
ghost use Rattle.grammar_laws.specs.Readers.{starts, option};
ghost use Rattle.dart_token.specs.declared.sign.Sign.TheVariants as s;
ghost use Rattle.dart_token.specs.declared.word.Word.TheVariants as w;
ghost use Rattle.token_codes.specs.Codes.{class_of, names, plain_names, atoms, heads, creations, these, this_word};
ghost use Rattle.token_codes.specs.Leaves as spec;
ghost use Rattle.syntax_readers.specs.Combinators.{behind_brackets};
ghost use Rattle.token_cursor.specs.Brackets.{Skips};
ghost use Rattle.token_cursor.specs.Gives.{Gives, same, next_code, end_code};
ghost use Rattle.token_cursor.specs.Views.{text_of, head_of};

use crate::codes::{
    DOUBLE_HEAD, END, FALSE, GET, HIDE, INTEGER, NAME, NULL, OF, ON, SET, SHOW, SINGLE_HEAD, THIS,
    TRUE, class_of, sign_code, word_code,
};
use crate::error::ReadFault;
use crate::value::{atom_of, created, headed, name_of, placed_text};
use dart_base::bytes::Bytes;
use dart_base::place::Place;
use dart_token::sign::Sign;
use dart_token::token::{Quote, Token};
use dart_token::word::Word;
use dart_tree::expression::{Atom, Creation};
use dart_tree::identifier::{CommaName, DotName, Identifier, Label};
use dart_tree::parameter::ThisDot;
use std::alloc::Global;
use std::marker::Model;

/// The tokens that are still to be read, the code of the next, and for each of them how far it is to behind the bracket that
/// closes it. Contracts see the list of the tokens.
#[derive(Drop)]
pub struct Cursor<'a> {
    rest: &'a [Token],
    skips: &'a [usize],
    code: u8,
}

impl<'a> Model for Cursor<'a> {
    ghost use Rattle.std.specs.Prelude.{◌≡◌, List};
    ghost use Rattle.dart_token.specs.declared.token.Token.{Token};
    ghost use Rattle.token_cursor.specs.Brackets.{Skips};
    ghost use Rattle.token_cursor.specs.Gives.{next_code};

    ghost Value = { List Token };

    ghost view = { λ c. c.rest.now };

    ghost invariant = { λ c. (c.code ≡ next_code c.rest.now) × Skips c.rest.now c.skips.now };
}

// The code of the first of the tokens.
fn next_code(tokens: &[Token]) -> u8
    ensures { result ≡ next_code tokens.now }
{
    match tokens {
        [] => END,
        [token, ..] => class_of(token),
    }
}

fn is_plain_name(code: u8) -> bool
    ensures { result ≡ has plain_names code }
{
    code == NAME || code == ON || code == OF || code == SHOW || code == HIDE
}

fn is_name(code: u8) -> bool
    ensures { result ≡ has names code }
{
    is_plain_name(code) || code == GET || code == SET
}

fn is_atom(code: u8) -> bool
    ensures { result ≡ has atoms code }
{
    code == INTEGER
        || code == THIS
        || code == NULL
        || code == TRUE
        || code == FALSE
        || is_name(code)
}

fn is_head(code: u8) -> bool
    ensures { result ≡ has heads code }
{
    code == SINGLE_HEAD || code == DOUBLE_HEAD
}

fn is_creation(code: u8) -> bool
    ensures { result ≡ has creations code }
{
    code == word_code(Word::New) || code == word_code(Word::Const)
}

/// A piece of a string: where it stands, and its text.
#[derive(Drop)]
pub struct PieceText {
    pub place: Place,
    pub text: Bytes,
}

/// The first piece of a string with expressions: its quote, where it stands, and its text.
#[derive(Drop)]
pub struct HeadText {
    pub quote: Quote,
    pub place: Place,
    pub text: Bytes,
}

impl<'a> Cursor<'a> {
    /// A cursor at the first of the tokens, of which these are the ways to behind their brackets.
    pub fn new(tokens: &'a [Token], skips: &'a [usize]) -> Cursor<'a>
        requires { Skips tokens.now skips.now }
        ensures { result ≡ tokens.now }
    {
        Cursor {
            rest: tokens,
            skips,
            code: next_code(tokens),
        }
    }

    /// A second cursor at the same token.
    pub fn fork(&self) -> Cursor<'a>
        ensures { result ≡ self.now }
    {
        Cursor {
            rest: self.rest,
            skips: self.skips,
            code: self.code,
        }
    }

    /// A cursor behind so many tokens, or at the end.
    #[tactic(auto, using(crate::proofs::Skipping::skips_enough))]
    pub fn behind(&self, count: usize) -> Cursor<'a>
        ensures { result ≡ drop count self.now }
    {
        let count = count.min(self.rest.len());
        Cursor::new(&self.rest[count..], &self.skips[count..])
    }

    /// A cursor behind the next token, or at the end.
    pub fn behind_next(&self) -> Cursor<'a>
        ensures { result ≡ drop 1 self.now }
    {
        self.behind(1)
    }

    /// A cursor behind the bracket that closes the one that comes, or at the end.
    pub fn behind_brackets(&self) -> Cursor<'a>
        ensures { result ≡ behind_brackets self.now }
    {
        if self.rest.is_empty() {
            return self.fork();
        }
        self.behind(self.skips[0])
    }

    /// A cursor over the first tokens alone, so many of them.
    #[tactic(auto, using(crate::proofs::Skipping::skips_before))]
    pub fn up_to(&self, count: usize) -> Cursor<'a>
        ensures { result ≡ take count self.now }
    {
        let count = count.min(self.rest.len());
        Cursor::new(&self.rest[..count], self.skips)
    }

    /// The tokens that are still to be read.
    pub fn rest(&self) -> &'a [Token]
        ensures { result.now ≡ self.now }
    {
        self.rest
    }

    /// How many tokens are left.
    pub fn left(&self) -> usize
        ensures { result ≡ length self.now }
    {
        self.rest.len()
    }

    /// Whether the next token has this code, which no end has.
    pub fn sees_code(&self, code: u8) -> bool
        requires { code < end_code }
        ensures { result ≡ starts class_of (code ∷ []) self.now }
    {
        self.code == code
    }

    /// Whether the next token is this sign.
    pub fn sees(&self, sign: Sign) -> bool
        ensures { result ≡ starts class_of (these sign) self.now }
    {
        self.code == sign_code(sign)
    }

    /// Whether the next token is this word.
    pub fn sees_word(&self, word: Word) -> bool
        ensures { result ≡ starts class_of (this_word word) self.now }
    {
        self.code == word_code(word)
    }

    /// Whether the next token is an identifier (ECMA-408, 16.33 Identifier Reference).
    pub fn sees_name(&self) -> bool
        ensures { result ≡ starts class_of names self.now }
    {
        is_name(self.code)
    }

    /// Whether the next token is an identifier other than `get` and `set`.
    pub fn sees_plain_name(&self) -> bool
        ensures { result ≡ starts class_of plain_names self.now }
    {
        is_plain_name(self.code)
    }

    /// Whether the next token is an expression by itself.
    pub fn sees_atom(&self) -> bool
        ensures { result ≡ starts class_of atoms self.now }
    {
        is_atom(self.code)
    }

    /// Whether the next token begins a string with expressions (ECMA-408, 16.5.1 String Interpolation).
    pub fn sees_head(&self) -> bool
        ensures { result ≡ starts class_of heads self.now }
    {
        is_head(self.code)
    }

    /// Whether the next token begins the making of an object (ECMA-408, 16.12 Instance Creation).
    pub fn sees_creation(&self) -> bool
        ensures { result ≡ starts class_of creations self.now }
    {
        is_creation(self.code)
    }

    // Takes the next token.
    fn take(&mut self) -> &'a Token
        requires { 0 < length self.old }
        ensures { self.old ≡ result.now ∷ self.new }
    {
        let token = &self.rest[0];
        self.rest = &self.rest[1..];
        self.skips = &self.skips[1..];
        self.code = next_code(self.rest);
        token
    }

    /// Takes this sign.
    pub fn expect(&mut self, sign: Sign) -> Result<Place, ReadFault>
        ensures { Gives same (spec.sign sign self.old) result self.new }
    {
        if !self.sees(sign) {
            return Err(ReadFault::Stuck);
        }
        let token = self.take();
        Ok(token.place)
    }

    /// Takes this sign, where it comes.
    pub fn maybe(&mut self, sign: Sign) -> Option<Place>
        ensures { Gives same (option class_of (these sign) (spec.sign sign) self.old) (Ok result) self.new }
    {
        if !self.sees(sign) {
            return None;
        }
        let token = self.take();
        Some(token.place)
    }

    /// Takes this word.
    pub fn expect_word(&mut self, word: Word) -> Result<Place, ReadFault>
        ensures { Gives same (spec.word word self.old) result self.new }
    {
        if !self.sees_word(word) {
            return Err(ReadFault::Stuck);
        }
        let token = self.take();
        Ok(token.place)
    }

    /// Takes this word, where it comes.
    pub fn maybe_word(&mut self, word: Word) -> Option<Place>
        ensures { Gives same (option class_of (this_word word) (spec.word word) self.old) (Ok result) self.new }
    {
        if !self.sees_word(word) {
            return None;
        }
        let token = self.take();
        Some(token.place)
    }

    /// Takes a token of this code, as an identifier that means something in some places.
    pub fn expect_code(&mut self, code: u8) -> Result<Place, ReadFault>
        requires { code < end_code }
        ensures { Gives same (spec.contextual code self.old) result self.new }
    {
        if !self.sees_code(code) {
            return Err(ReadFault::Stuck);
        }
        let token = self.take();
        Ok(token.place)
    }

    /// Takes `new` or `const` (ECMA-408, 16.12 Instance Creation).
    pub fn creation(&mut self) -> Result<Creation, ReadFault>
        ensures { Gives same (spec.creation self.old) result self.new }
    {
        if !self.sees_creation() {
            return Err(ReadFault::Stuck);
        }
        let token = self.take();
        Ok(created(token))
    }

    /// Takes an identifier (ECMA-408, 16.33 Identifier Reference).
    pub fn identifier(&mut self, alloc: Global) -> Result<Identifier, ReadFault>
        ensures { Gives same (spec.identifier self.old) result self.new }
    {
        if !self.sees_name() {
            return Err(ReadFault::Stuck);
        }
        let token = self.take();
        Ok(name_of(alloc, token)?)
    }

    /// Takes an identifier other than `get` and `set`.
    pub fn plain_identifier(&mut self, alloc: Global) -> Result<Identifier, ReadFault>
        ensures { Gives same (spec.plain_identifier self.old) result self.new }
    {
        if !self.sees_plain_name() {
            return Err(ReadFault::Stuck);
        }
        let token = self.take();
        Ok(name_of(alloc, token)?)
    }

    /// Whether an identifier other than `get` and `set` comes that is written so.
    #[tactic(auto, unfolding(token_codes::specs::Leaves::is_named))]
    pub fn sees_named(&self, text: &[u8]) -> bool
        ensures { result ≡ spec.is_named text.now self.now }
    {
        if !self.sees_plain_name() {
            return false;
        }
        self.rest[0].lexeme.as_slice() == text
    }

    /// Takes a dot and an identifier.
    #[tactic(auto, unfolding(token_codes::specs::Leaves::dot_name))]
    pub fn dot_name(&mut self, alloc: Global) -> Result<DotName, ReadFault>
        ensures { Gives same (spec.dot_name self.old) result self.new }
    {
        let dot = self.expect(Sign::Dot)?;
        let name = self.identifier(alloc)?;
        Ok(DotName { dot, name })
    }

    /// Takes a dot and an identifier, where a dot comes.
    pub fn maybe_dot_name(&mut self, alloc: Global) -> Result<Option<DotName>, ReadFault>
        ensures { Gives same (option class_of (these s.Dot) spec.dot_name self.old) result self.new }
    {
        if !self.sees(Sign::Dot) {
            return Ok(None);
        }
        let name = self.dot_name(alloc)?;
        Ok(Some(name))
    }

    /// Takes an identifier and a colon.
    #[tactic(auto, unfolding(token_codes::specs::Leaves::label))]
    pub fn label(&mut self, alloc: Global) -> Result<Label, ReadFault>
        ensures { Gives same (spec.label self.old) result self.new }
    {
        let name = self.identifier(alloc)?;
        let colon = self.expect(Sign::Colon)?;
        Ok(Label { name, colon })
    }

    /// Takes a comma and an identifier.
    #[tactic(auto, unfolding(token_codes::specs::Leaves::comma_name))]
    pub fn comma_name(&mut self, alloc: Global) -> Result<CommaName, ReadFault>
        ensures { Gives same (spec.comma_name self.old) result self.new }
    {
        let comma = self.expect(Sign::Comma)?;
        let name = self.identifier(alloc)?;
        Ok(CommaName { comma, name })
    }

    /// Takes `this` and a dot (ECMA-408, 10.6.1 Generative Constructors).
    #[tactic(auto, unfolding(token_codes::specs::Leaves::this_dot))]
    pub fn this_dot(&mut self) -> Result<ThisDot, ReadFault>
        ensures { Gives same (spec.this_dot self.old) result self.new }
    {
        let this = self.expect_word(Word::This)?;
        let dot = self.expect(Sign::Dot)?;
        Ok(ThisDot { this, dot })
    }

    /// Takes `this` and a dot, where `this` comes.
    pub fn maybe_this_dot(&mut self) -> Result<Option<ThisDot>, ReadFault>
        ensures { Gives same (option class_of (this_word w.This) spec.this_dot self.old) result self.new }
    {
        if !self.sees_word(Word::This) {
            return Ok(None);
        }
        let this_dot = self.this_dot()?;
        Ok(Some(this_dot))
    }

    /// Takes an expression of one token.
    pub fn atom(&mut self, alloc: Global) -> Result<Atom, ReadFault>
        ensures { Gives same (spec.atom self.old) result self.new }
    {
        if !self.sees_atom() {
            return Err(ReadFault::Stuck);
        }
        let token = self.take();
        Ok(atom_of(alloc, token)?)
    }

    /// Takes a piece of a string, of this code.
    pub fn piece(&mut self, alloc: Global, code: u8) -> Result<PieceText, ReadFault>
        requires { code < end_code }
        ensures { Gives text_of (spec.piece code self.old) result self.new }
    {
        if !self.sees_code(code) {
            return Err(ReadFault::Stuck);
        }
        let token = self.take();
        Ok(placed_text(alloc, token)?)
    }

    /// Takes the first piece of a string with expressions.
    pub fn head(&mut self, alloc: Global) -> Result<HeadText, ReadFault>
        ensures { Gives head_of (spec.head self.old) result self.new }
    {
        if !self.sees_head() {
            return Err(ReadFault::Stuck);
        }
        let token = self.take();
        Ok(headed(alloc, token)?)
    }
}

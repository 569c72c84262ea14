// The words of the language: the reserved words and the built-in identifiers.
ghost use Rattle.std.specs.Prelude.{◌≡◌, IfSome, IfNone};
ghost use Rattle.dart_token.specs.declared.word.Word.{Word};
ghost use Rattle.dart_token.specs.Lookup.{words_from, first_with};
ghost use Rattle.dart_token.specs.Word.{word_text, is_reserved};

/// A word of the language (ECMA-408, 20.1.1 Reserved Words and 16.33 Identifier Reference).
///
/// Another one is also a line of `text` and of `words_from`, of `word_text` in specs/Word.antt, of `words_from` in
/// specs/Lookup.antt and of `word_found` in proofs/Words.antt; a built-in identifier also one of `is_reserved` here
/// and in specs/Word.antt.
#[derive(Clone, Copy, Debug, PartialEq, Eq)]
pub enum Word {
    Assert,
    Break,
    Case,
    Catch,
    Class,
    Const,
    Continue,
    Default,
    Do,
    Else,
    Enum,
    Extends,
    False,
    Final,
    Finally,
    For,
    If,
    In,
    Is,
    New,
    Null,
    Rethrow,
    Return,
    Super,
    Switch,
    This,
    Throw,
    True,
    Try,
    Var,
    Void,
    While,
    With,
    Abstract,
    As,
    Deferred,
    Dynamic,
    Export,
    External,
    Factory,
    Get,
    Implements,
    Import,
    Library,
    Operator,
    Part,
    Set,
    Static,
    Typedef,
}

impl Word {
    /// How the word is written.
    pub fn text(self) -> &'static [u8]
        ensures { result.now ≡ word_text self }
    {
        match self {
            Word::Assert => b"assert",
            Word::Break => b"break",
            Word::Case => b"case",
            Word::Catch => b"catch",
            Word::Class => b"class",
            Word::Const => b"const",
            Word::Continue => b"continue",
            Word::Default => b"default",
            Word::Do => b"do",
            Word::Else => b"else",
            Word::Enum => b"enum",
            Word::Extends => b"extends",
            Word::False => b"false",
            Word::Final => b"final",
            Word::Finally => b"finally",
            Word::For => b"for",
            Word::If => b"if",
            Word::In => b"in",
            Word::Is => b"is",
            Word::New => b"new",
            Word::Null => b"null",
            Word::Rethrow => b"rethrow",
            Word::Return => b"return",
            Word::Super => b"super",
            Word::Switch => b"switch",
            Word::This => b"this",
            Word::Throw => b"throw",
            Word::True => b"true",
            Word::Try => b"try",
            Word::Var => b"var",
            Word::Void => b"void",
            Word::While => b"while",
            Word::With => b"with",
            Word::Abstract => b"abstract",
            Word::As => b"as",
            Word::Deferred => b"deferred",
            Word::Dynamic => b"dynamic",
            Word::Export => b"export",
            Word::External => b"external",
            Word::Factory => b"factory",
            Word::Get => b"get",
            Word::Implements => b"implements",
            Word::Import => b"import",
            Word::Library => b"library",
            Word::Operator => b"operator",
            Word::Part => b"part",
            Word::Set => b"set",
            Word::Static => b"static",
            Word::Typedef => b"typedef",
        }
    }

    /// Whether the word is reserved. The others are the built-in identifiers.
    pub fn is_reserved(self) -> bool
        ensures { result ≡ is_reserved self }
    {
        match self {
            Word::Abstract
            | Word::As
            | Word::Deferred
            | Word::Dynamic
            | Word::Export
            | Word::External
            | Word::Factory
            | Word::Get
            | Word::Implements
            | Word::Import
            | Word::Library
            | Word::Operator
            | Word::Part
            | Word::Set
            | Word::Static
            | Word::Typedef => false,
            _ => true,
        }
    }

    /// The word that is written like this, if there is one.
    pub fn of(text: &[u8]) -> Option<Word>
        ensures some { IfSome result (λ word. word_text word ≡ text.now) }
        ensures none { IfNone result ((word : Word) → ¬ (word_text word ≡ text.now)) }
    {
        match text {
            [first, ..] => first_with(words_from(*first), text),
            [] => None,
        }
    }
}

// The words that begin with this byte.
fn words_from(first: u8) -> &'static [Word]
    ensures { result.now ≡ words_from first }
{
    match first {
        b'a' => &[Word::Assert, Word::Abstract, Word::As],
        b'b' => &[Word::Break],
        b'c' => &[
            Word::Case,
            Word::Catch,
            Word::Class,
            Word::Const,
            Word::Continue,
        ],
        b'd' => &[Word::Default, Word::Do, Word::Deferred, Word::Dynamic],
        b'e' => &[
            Word::Else,
            Word::Enum,
            Word::Extends,
            Word::Export,
            Word::External,
        ],
        b'f' => &[
            Word::False,
            Word::Final,
            Word::Finally,
            Word::For,
            Word::Factory,
        ],
        b'g' => &[Word::Get],
        b'i' => &[Word::If, Word::In, Word::Is, Word::Implements, Word::Import],
        b'l' => &[Word::Library],
        b'n' => &[Word::New, Word::Null],
        b'o' => &[Word::Operator],
        b'p' => &[Word::Part],
        b'r' => &[Word::Rethrow, Word::Return],
        b's' => &[Word::Super, Word::Switch, Word::Set, Word::Static],
        b't' => &[
            Word::This,
            Word::Throw,
            Word::True,
            Word::Try,
            Word::Typedef,
        ],
        b'v' => &[Word::Var, Word::Void],
        b'w' => &[Word::While, Word::With],
        _ => &[],
    }
}

// The first of the words that is written like this.
fn first_with(words: &[Word], text: &[u8]) -> Option<Word>
    ensures { result ≡ first_with words.now text.now }
{
    for word in words {
        if word.text() == text {
            return Some(*word);
        }
    }
    None
}

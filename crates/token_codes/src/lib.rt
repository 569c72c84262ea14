// The codes of tokens, and the readers of single tokens. The crate runs nothing.
#![tactic(auto)]

ghost use Rattle.token_codes.specs.Statements.{SignsRead, WordsRead, NamesRead};

/// Each sign has a code, by which its reader finds it and nothing else.
pub fn signs_read()
    ensures { SignsRead }
{}

/// Each word has a code, by which its reader finds it and nothing else.
pub fn words_read()
    ensures { WordsRead }
{}

/// Identifiers, alone and behind a dot, have codes by which their readers find them and nothing else (ECMA-408, 16.33
/// Identifier Reference).
pub fn names_read()
    ensures { NamesRead }
{}

// What readers of generative constructors ask of the grammar holds, so they find them where what stands inside is. The crate runs nothing.
#![tactic(auto)]

ghost use Rattle.laws_constructor.specs.Statements.{BracesClose, ConstructorsFound};

/// At every depth initialisers that go on with a brace close it, and blocks close their own; behind each block in initialisers outside all other
/// brackets, and behind one with which they go on, stands what may go on behind a function literal; and within a block behind initialisers its own
/// brace is the last one outside all brackets (ECMA-408, 10.6.1 Generative Constructors, 17.1 Blocks).
pub fn braces_close()
    ensures { BracesClose }
{}

/// At every depth generative constructors are read as what they are, and by the mended reader found exactly, where the readers of initialisers,
/// parameters and blocks inside find theirs (ECMA-408, 10.6.1 Generative Constructors).
pub fn constructors_found()
    ensures { ConstructorsFound }
{}

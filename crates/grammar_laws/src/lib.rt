// The laws of readers: deterministic parsers on lists of tokens against printers, well-formedness and fronts.
// The crate runs nothing. Each function here carries a law as its contract, for every type of token and of tree,
// where tests decide which trees are well formed and which lists are fronts; `proofs/` has the laws for any predicate.
#![tactic(auto)]

ghost use Rattle.grammar_laws.specs.Statements.{WholeListLaw, SequenceLaw, FollowedLaw, RepetitionLaw, SecondTryLaw};

/// What a reader with the laws answers on a whole list of tokens is exact both ways: the only tree that has these
/// tokens, or the first token with which the list begins no list of the language.
pub fn whole_list<T, A>()
    ensures { WholeListLaw T A }
{}

/// Two readers in a row have the laws, where no token both goes on behind the first and begins the second.
pub fn sequence<T, A, B>()
    ensures { SequenceLaw T A B }
{}

/// A reader, and a second one where the first tree lets it follow, have the laws.
pub fn continuation<T, A, B>()
    ensures { FollowedLaw T A B }
{}

/// Any number of items has the laws, where an item that lets another follow does not go on with its first tokens.
pub fn repetition<T, A>()
    ensures { RepetitionLaw T A }
{}

/// A second try has the laws, where neither reader can go on behind a whole tree of the other: the second counts
/// exactly where no tree of the first has its tokens, and of two faults the later one is the fault.
pub fn second_try<T, A>()
    ensures { SecondTryLaw T A }
{}

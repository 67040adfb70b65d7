//! Laws of what it is to read a production.
ghost use Rattle.c_grammar.specs.Numbers.{SpeaksOfWords, code_names, table_names};
ghost use Rattle.c_grammar.specs.Order.{InOrder, EndsWith};
ghost use Rattle.c_grammar.specs.Reads.{Fault, Opens, State};
ghost use Rattle.c_grammar.specs.Tree.{makes_node};
ghost use Rattle.c_grammar.specs.Yield.{Yields};
ghost use Rattle.c_lexer.specs.declared.Token.{Token};
ghost use Rattle.std.specs.Prelude.{◌≡◌, ℕ, List, Result, Ok, true};

/// A production reads in one way: it has one tree, or one first fault.
pub fn one_reading()
    ensures { (text : List ℕ) (tokens : List Token) (q d : ℕ) (s : State) (one other : Result State Fault)
        → Opens text tokens q d s one → Opens text tokens q d s other → one ≡ other }
{}

/// The leaves that a reading adds are the tokens from its first place to its last, each once and in order.
pub fn all_tokens()
    ensures { (text : List ℕ) (tokens : List Token) (q d : ℕ) (s t : State)
        → Opens text tokens q d s (Ok t) → Yields s.place s.nodes t }
{}

/// A reading keeps the list of nodes in order: children have smaller numbers than their parents.
pub fn children_first()
    ensures { (text : List ℕ) (tokens : List Token) (q d : ℕ) (s t : State)
        → Opens text tokens q d s (Ok t) → InOrder s → InOrder t }
{}

/// The last node that a reading adds is its production's, at the token where it began.
pub fn one_node()
    ensures { (text : List ℕ) (tokens : List Token) (q d : ℕ) (s t : State)
        → makes_node q ≡ true → Opens text tokens q d s (Ok t) → EndsWith q s.place s.nodes t.nodes }
{}

/// The numbers of the words and signs in the table are the positions of their spellings, and the public names of the
/// productions are the table's.
pub fn numbers_of_words()
    ensures words { SpeaksOfWords }
    ensures productions { code_names ≡ table_names }
{}

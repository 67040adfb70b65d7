//! Laws of the definitions: how what is behind a place is found one step at a time, and initialisers whose items are known
//! (C11 6.7.9).

ghost use Rattle.c_inits.specs.Laws.{GoesDown, GoesOver, GoesAcross, GoesUp};
ghost use Rattle.c_inits.specs.Examples.{ScalarExamples, ArrayExamples, StructureExamples, ReplacementExamples};
ghost use Rattle.c_inits.specs.Examples.{UnionExamples, TextExamples};

/// Where a sub-object has parts, the first of them follows it (C11 6.7.9p17, p20: the list begins with the sub-object itself, and
/// then comes what is in it).
pub fn goes_down()
    ensures { GoesDown }
{}

/// Where a sub-object has no part, what follows it is what is behind it.
pub fn goes_over()
    ensures { GoesOver }
{}

/// Behind a part that has another one after it comes that other part: the next element or member.
pub fn goes_across()
    ensures { GoesAcross }
{}

/// Behind the last part of a sub-object is what is behind the sub-object: its braces were left out.
pub fn goes_up()
    ensures { GoesUp }
{}

/// Scalars: an expression alone or in braces; a second brace and a second value have no place (C11 6.7.9p11).
pub fn scalar_examples()
    ensures { ScalarExamples }
{}

/// Arrays: omitted braces, designators, and the length from the largest index (C11 6.7.9p17, p20, p22).
pub fn array_examples()
    ensures { ArrayExamples }
{}

/// Structures: omitted braces, a member given as a whole, unnamed and empty members (C11 6.7.9p13, p17, p20).
pub fn structure_examples()
    ensures { StructureExamples }
{}

/// A later initialiser for a sub-object replaces what stood at it or in it, and one for a part of it does not (C11 6.7.9p19).
pub fn replacement_examples()
    ensures { ReplacementExamples }
{}

/// Unions: the first member, or the designated one (C11 6.7.9p17).
pub fn union_examples()
    ensures { UnionExamples }
{}

/// Strings: one item for each character, the closing zero where there is room (C11 6.7.9p14).
pub fn text_examples()
    ensures { TextExamples }
{}

//! What the tokens of a text say of its constants and strings.
ghost use Rattle.c_literals.specs.Laws.{LiteralsFit};
ghost use Rattle.c_literals.specs.Readings.{StringsAreNarrow, ReadingsAreReadable};

/// Among the tokens of a text, each integer constant is below 2^64, and each string that isn't wide stands for bytes: so a caller of
/// `integer_constant` and `push_string` needs no test.
pub fn literals_fit()
    ensures { LiteralsFit }
{}

/// No string among the tokens that the grammar reads as a production is wide.
pub fn strings_are_narrow()
    ensures { StringsAreNarrow }
{}

/// So among the tokens that are read as a production, each integer constant is below 2^64 and each string stands for bytes.
pub fn readings_are_readable()
    ensures { ReadingsAreReadable }
{}

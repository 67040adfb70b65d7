//! The laws of the cutting.
ghost use Rattle.c_lexer.specs.Laws.{OneCutting, SpansInOrder, TokensStand};

/// A text has one list of tokens or one first fault, and not both.
pub fn one_cutting()
    ensures { OneCutting }
{}

/// The tokens of a text stand in order: each ends at the latest where the next one starts, and all end within the text.
pub fn spans_in_order()
    ensures { SpansInOrder }
{}

/// Each token is a piece without a flaw that means it, or the end of the text: so the bytes of a number token are a constant, and
/// those of a literal a closed literal whose escapes are good.
pub fn tokens_stand()
    ensures { TokensStand }
{}

//! Tokens of a preprocessed C11 unit.
#![tactic(auto)]

mod bytes;
mod escapes;
mod flaws;
mod groups;
pub mod laws;
pub mod lexer;
mod meanings;
mod numbers;
mod pieces;
mod places;
mod punctuators;
mod quotes;
mod runs;
pub mod spellings;

/// What a token is (C11 6.4). `Keyword` and `Punctuator` hold a position in the tables of `spellings`.
#[derive(Clone, Copy, Debug, PartialEq, Eq)]
pub enum TokenKind {
    Identifier,
    /// 0 to 44, the position of a keyword in `spellings::KEYWORDS`.
    Keyword(u8),
    /// 0 to 47, the position of a punctuator in `spellings::PUNCTUATORS`.
    Punctuator(u8),
    Integer,
    Floating,
    Character,
    Text,
    End,
}

/// A token with its span in the text, from its first byte to the byte behind its last, and the line and the column of its
/// first byte, both counted from 1. Columns count bytes.
#[derive(Clone, Copy, Debug, PartialEq, Eq)]
pub struct Token {
    pub kind: TokenKind,
    pub start: u32,
    pub end: u32,
    pub line: u32,
    pub column: u32,
}

/// The tokens of a text in order, with one `End` as the last.
#[derive(Drop)]
pub struct Tokens<'a> {
    pub text: &'a [u8],
    pub list: Vec<Token>,
}

/// The first place of a text where no token stands, by its byte offset.
#[derive(Clone, Copy, Debug, PartialEq, Eq)]
pub enum LexFault {
    /// A byte that begins no token, or the backslash of an escape that is none (C11 6.4, 6.4.4.4).
    BadByte(u32),
    /// The quote of a literal that isn't closed on its line or of a character constant without a character (C11 6.4.4.4,
    /// 6.4.5), or the first byte of an `__attribute__` without its balanced parentheses.
    Unended(u32),
    /// The first byte of a number token that is no constant (C11 6.4.4.1, 6.4.4.2, 6.4.8).
    BadNumber(u32),
    /// The text has more than 2^24 bytes.
    TooLong,
    /// Memory ran out.
    OutOfMemory,
}

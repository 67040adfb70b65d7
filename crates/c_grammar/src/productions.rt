//! The productions of the grammar by name. The first 48 make a node of the syntax tree.

/// A whole unit (C11 6.9): external declarations up to the end.
pub const UNIT: u32 = 0;
/// An external declaration or a function definition (C11 6.9, 6.9.1).
pub const EXTERNAL: u32 = 1;
/// What follows the first declarator of a declaration: its initialiser and further declarators.
pub const REST: u32 = 2;
/// A declaration (C11 6.7).
pub const DECLARATION: u32 = 3;
/// A static assertion (C11 6.7.10).
pub const ASSERT: u32 = 4;
/// An assembler name behind a declarator, which has no meaning.
pub const ASM_NAME: u32 = 5;
/// Declaration specifiers (C11 6.7).
pub const SPECS: u32 = 6;
/// A storage-class specifier (C11 6.7.1).
pub const STORAGE: u32 = 7;
/// A function specifier (C11 6.7.4).
pub const FUNCTION: u32 = 8;
/// A type qualifier (C11 6.7.3).
pub const QUALIFIER: u32 = 9;
/// An alignment specifier (C11 6.7.5).
pub const ALIGN: u32 = 10;
/// A type specifier (C11 6.7.2).
pub const TYPE: u32 = 11;
/// A structure or union specifier (C11 6.7.2.1).
pub const STRUCT: u32 = 12;
/// The list of members in braces.
pub const MEMBERS: u32 = 13;
/// A declaration of members.
pub const MEMBER: u32 = 14;
/// One declarator of a member, or a bit-field.
pub const FIELD: u32 = 15;
/// An enumeration specifier (C11 6.7.2.2).
pub const ENUM: u32 = 16;
/// The list of enumerators in braces.
pub const ENUMERATORS: u32 = 17;
/// An enumerator.
pub const ENUMERATOR: u32 = 18;
/// A declarator with a name (C11 6.7.6).
pub const DECLARATOR: u32 = 19;
/// A declarator without a name (C11 6.7.7).
pub const ABSTRACT: u32 = 20;
/// A declarator of a parameter, with or without a name.
pub const EITHER: u32 = 21;
/// An array or function suffix of a declarator.
pub const SUFFIX: u32 = 22;
/// A parameter declaration.
pub const PARAMETER: u32 = 23;
/// A type name (C11 6.7.7).
pub const TYPE_NAME: u32 = 24;
/// An initialiser (C11 6.7.9).
pub const INIT: u32 = 25;
/// The items of an initialiser in braces.
pub const ITEMS: u32 = 26;
/// An item: designators and an initialiser.
pub const ITEM: u32 = 27;
/// A designator.
pub const DESIGNATOR: u32 = 28;
/// A compound statement (C11 6.8.2).
pub const BLOCK: u32 = 29;
/// A statement (C11 6.8).
pub const STATEMENT: u32 = 30;
/// An expression with commas (C11 6.5.17).
pub const EXPRESSION: u32 = 31;
/// An assignment (C11 6.5.16).
pub const ASSIGNMENT: u32 = 32;
/// A conditional (C11 6.5.15).
pub const CONDITIONAL: u32 = 33;
/// Operands of `||` (C11 6.5.14).
pub const LOGICAL_OR: u32 = 34;
/// Operands of `&&` (C11 6.5.13).
pub const LOGICAL_AND: u32 = 35;
/// Operands of `|` (C11 6.5.12).
pub const INCLUSIVE_OR: u32 = 36;
/// Operands of `^` (C11 6.5.11).
pub const EXCLUSIVE_OR: u32 = 37;
/// Operands of `&` (C11 6.5.10).
pub const AND: u32 = 38;
/// Operands of `==` and `!=` (C11 6.5.9).
pub const EQUALITY: u32 = 39;
/// Operands of `<`, `>`, `<=` and `>=` (C11 6.5.8).
pub const RELATIONAL: u32 = 40;
/// Operands of `<<` and `>>` (C11 6.5.7).
pub const SHIFT: u32 = 41;
/// Operands of `+` and `-` (C11 6.5.6).
pub const ADDITIVE: u32 = 42;
/// Operands of `*`, `/` and `%` (C11 6.5.5).
pub const MULTIPLICATIVE: u32 = 43;
/// A cast, a compound literal or a unary expression (C11 6.5.4).
pub const CAST: u32 = 44;
/// A unary expression, with what follows a primary (C11 6.5.3).
pub const UNARY: u32 = 45;
/// A postfix operator (C11 6.5.2).
pub const POST: u32 = 46;
/// A primary expression (C11 6.5.1).
pub const PRIMARY: u32 = 47;

/// How many productions make a node.
pub const NODES: u32 = 48;

// Parts of rows.
pub(crate) const NOTHING_AT_ALL: u32 = 48;

pub(crate) const EARLY: u32 = 61;

pub(crate) const LATER: u32 = 63;

pub(crate) const MORE_TYPE: u32 = 62;

pub(crate) const TYPED_CAST: u32 = 216;

pub(crate) const TYPED_SIZE: u32 = 231;

pub(crate) const INNER_ABSTRACT: u32 = 118;

pub(crate) const INNER_EITHER: u32 = 119;

pub(crate) const EITHER_1: u32 = 120;

pub(crate) const ARRAY_LENGTH: u32 = 124;

pub(crate) const BLOCK_DECLARATION: u32 = 137;

pub(crate) const LABEL: u32 = 138;

pub(crate) const MORE_ENUMERATORS: u32 = 113;

pub(crate) const MORE_ITEMS: u32 = 131;

pub(crate) const MORE_PARAMETERS: u32 = 127;

pub(crate) const ANY_LENGTH: u32 = 123;

pub(crate) const BODY: u32 = 53;

pub(crate) const FLOATING_NAME: u32 = 78;

pub(crate) const TYPEDEF_NAME: u32 = 79;

pub(crate) const STAR: u32 = 115;

pub(crate) const JUST_IDENT: u32 = 116;

pub(crate) const JUST_TYPEDEF: u32 = 64;

pub(crate) const JUST_VOID: u32 = 80;

pub(crate) const JUST_BOOL: u32 = 89;

pub(crate) const LIST_SUFFIX: u32 = 125;

pub(crate) const RANGE_END: u32 = 135;

pub(crate) const CASE_END: u32 = 140;

pub(crate) const JUST_STRUCT: u32 = 102;

pub(crate) const JUST_UNION: u32 = 103;

pub(crate) const LIST_PAIR_CALL: u32 = 253;

pub(crate) const LIST_ARGUMENT_CALL: u32 = 254;

pub(crate) const LIST_END_CALL: u32 = 255;

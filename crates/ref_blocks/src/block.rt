// What a block is.

ghost use Rattle.std.specs.Prelude.{◌≡◌};
ghost use Rattle.ref_blocks.specs.Around.{same_block, is_among};

/// A block: that of a statement, by the statement's node, or the one that a branch of an If or the body of another statement
/// is, by its node (C11 6.8.4p3, 6.8.5p5). A branch or body that is a Block statement has that statement's block alone.
#[derive(Clone, Copy, Debug, PartialEq, Eq)]
pub enum Block {
    Own(u32),
    Part(u32),
}

/// Whether two blocks are the same.
pub fn same_block(a: Block, b: Block) -> bool
    ensures { result ≡ same_block a b }
{
    match (a, b) {
        (Block::Own(n), Block::Own(m)) => n == m,
        (Block::Part(n), Block::Part(m)) => n == m,
        _ => false,
    }
}

/// Whether a block is one of these.
pub fn is_among(list: &[Block], block: Block) -> bool
    ensures { result ≡ is_among list.now block }
{
    list.iter().any(|other| same_block(block, *other))
}

//! Lists of pairs that join a book.
ghost use Rattle.std.specs.Prelude.{OnOk, Contains};
ghost use Rattle.new_members.specs.News.{Takes};

use edge_book::PairBook;
use pta_base::OutOfMemory;

/// Adds those edges of a list that the book doesn't have.
pub(crate) fn add_all(book: &mut PairBook, pairs: &[(u32, u32)]) -> Result<(), OutOfMemory>
    ensures { OnOk result (Takes book.old book.new (λ a b. Contains pairs.now (a, b))) }
{
    for (from, to) in pairs {
        book.add(*from, *to)?;
    }
    Ok(())
}

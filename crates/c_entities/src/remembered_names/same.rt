// Lists of types that are the same.
ghost use Rattle.std.specs.Prelude.{◌≡◌, true};

use c_types::term::TypeId;

/// Whether two lists of types are for sure the same.
pub fn same_ids(one: &[TypeId], other: &[TypeId]) -> bool
    ensures { result ≡ true → one.now ≡ other.now }
{
    if one.len() != other.len() {
        return false;
    }
    for i in 0..one.len() {
        if one[i].0 != other[i].0 {
            return false;
        }
    }
    true
}

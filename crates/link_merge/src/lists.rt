//! The member lists that tags have in their own units.

ghost use Rattle.std.specs.Prelude.{◌≡◌, ◌<◌, ◌+◌, None, Some, IfSome, IsTrue, ◌↔◌, IsSome, MatchOption, All, length, slice_index};
ghost use Rattle.link_model.specs.Units.{IsTag, list_at, types_in};

use c_types::term::MemberTerm;
use core_tree::Unit;
use link_model::Item;

/// The member list that a tag has in its own unit; None exactly where it has none there.
pub fn own_list(units: &[Unit], tag: Item) -> Option<&[MemberTerm]>
    requires { IsTag units.now tag }
    ensures list { MatchOption result (list_at units.now tag ≡ None) (λ m. list_at units.now tag ≡ Some m.now) }
    ensures types { IfSome result (λ m. All (λ member. member.ty.0 < length (types_in units.now tag.unit).terms) m.now) }
{
    units[tag.unit as usize].types.members(tag.number)
}

/// Whether a tag has a member list in its own unit.
pub fn has_list(units: &[Unit], tag: Item) -> bool
    requires { IsTag units.now tag }
    ensures { IsTrue result ↔ IsSome (list_at units.now tag) }
{
    own_list(units, tag).is_some()
}

// The specifiers of structures, unions and enumerations, from one to the next.
ghost use Rattle.std.specs.Prelude.{◌≤◌};
ghost use Rattle.c_senses.specs.Tree.{Source};
ghost use Rattle.tree_reads.specs.node_roles.Roles.{AreRoles};
ghost use Rattle.c_tags.specs.tag_numbers.Numbers.{NoSpecifier};

use tree_reads::node_roles::{Role, is_specifier_at};

/// The first specifier of a structure, a union or an enumeration from a node on, by what each of so many nodes is: their number where
/// there is none.
pub(in crate::tag_numbers) fn next_specifier(roles: &[Role], from: u32, count: u32) -> u32
    requires { from ≤ count }
    ensures after { from ≤ result }
    ensures within { result ≤ count }
    ensures none { (s : Source) → AreRoles s roles.now → NoSpecifier s from result }
{
    for at in from..count {
        if is_specifier_at(roles, at) {
            return at;
        }
    }
    count
}

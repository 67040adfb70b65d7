// Constraints of a valid system.
ghost use Rattle.std.specs.Prelude.{◌↔◌, All, IsTrue};
ghost use Rattle.sol_model.specs.Systems.{IsNodeOf, HasMember, IsConstraintValid};

use sol_model::{Constraint, System};

/// Whether there is a type with such a node.
fn is_node_of(system: &System, ty: u32, node: u32) -> bool
    ensures { IsTrue result ↔ IsNodeOf system.now ty node }
{
    match system.types.as_slice().get(ty as usize) {
        Some(fact) => node < fact.nodes,
        None => false,
    }
}

/// Whether there is a type with such a member.
fn has_member(system: &System, ty: u32, member: u32) -> bool
    ensures { IsTrue result ↔ HasMember system.now ty member }
{
    match system.types.as_slice().get(ty as usize) {
        Some(fact) => (member as usize) < fact.members.len(),
        None => false,
    }
}

/// Whether each number of a constraint is in range.
pub(in crate::system_check) fn is_constraint_valid(system: &System, constraint: Constraint) -> bool
    ensures { IsTrue result ↔ IsConstraintValid system.now constraint }
{
    match constraint {
        Constraint::Address { row, location } => row < system.rows
            && (location as usize) < system.locations.len(),
        Constraint::Copy { from, to } => from < system.rows && to < system.rows,
        Constraint::Load {
            pointer,
            to,
            ty,
            sub,
        } => pointer < system.rows && to < system.rows && is_node_of(system, ty, sub),
        Constraint::Store {
            pointer,
            from,
            ty,
            sub,
        } => pointer < system.rows && from < system.rows && is_node_of(system, ty, sub),
        Constraint::Field {
            from,
            to,
            ty,
            member,
        } => from < system.rows && to < system.rows && has_member(system, ty, member),
        Constraint::Contents { to, from } => to < system.rows && from < system.rows,
        Constraint::Call { call } => (call as usize) < system.calls.len(),
    }
}

/// Whether each constraint is valid.
pub(in crate::system_check) fn are_constraints_valid(
    system: &System,
    constraints: &[Constraint],
) -> bool
    ensures { IsTrue result ↔ All (IsConstraintValid system.now) constraints.now }
{
    constraints
        .iter()
        .all(|constraint| is_constraint_valid(system, *constraint))
}

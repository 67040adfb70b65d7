//! Reads and writes of single core nodes.
ghost use Rattle.std.specs.Prelude.{◌≡◌, ◌↔◌, IsTrue, slice_get};
ghost use Rattle.mod_ref.specs.Direct.{IsWrite, filled_by, place_of, takes_argument};

use core_tree::NodeKind;

/// A read or a write.
#[derive(Clone, Copy, Debug, PartialEq, Eq)]
pub enum Access {
    Read,
    Write,
}

/// Whether it is a write.
pub(crate) fn is_write(access: Access) -> bool
    ensures { IsTrue result ↔ IsWrite access }
{
    match access {
        Access::Read => false,
        Access::Write => true,
    }
}

/// The first child, where there is one.
fn first_of(children: &[u32]) -> Option<u32>
    ensures { result ≡ slice_get children.now 0 }
{
    match children {
        [p, ..] => Some(*p),
        [] => None,
    }
}

/// The place that a node of a kind reads or writes.
pub(crate) fn place_of(access: Access, kind: &NodeKind, children: &[u32]) -> Option<u32>
    ensures { result ≡ place_of access kind.now children.now }
{
    match (access, kind) {
        (Access::Read, NodeKind::Fetch) => first_of(children),
        (Access::Write, NodeKind::Assign) => first_of(children),
        (_, NodeKind::Update { .. }) => first_of(children),
        (_, NodeKind::NextArg) => first_of(children),
        _ => None,
    }
}

/// Whether a node of a kind reads one of the arguments that its list leads to.
pub(crate) fn takes_argument(access: Access, kind: &NodeKind) -> bool
    ensures { result ≡ takes_argument access kind.now }
{
    match (access, kind) {
        (Access::Read, NodeKind::NextArg) => true,
        _ => false,
    }
}

/// The entity whose object a node of a kind writes whole.
pub(crate) fn filled_by(access: Access, kind: &NodeKind) -> Option<u32>
    ensures { result ≡ filled_by access kind.now }
{
    match (access, kind) {
        (Access::Write, NodeKind::Literal(e)) => Some(*e),
        (Access::Write, NodeKind::Initialise { entity, .. }) => Some(*entity),
        _ => None,
    }
}

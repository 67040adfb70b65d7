// The instances of objects that live for the whole run, found by their objects.

ghost use Rattle.std.specs.Prelude.{◌≡◌, false, [], ◌∷◌, List, ℕ, IfSome};
ghost use Rattle.core_tree.specs.Seen.{core_of};
ghost use Rattle.ref_cells.specs.declared.cells.Cell.TheVariants.{Pointer};
ghost use Rattle.ref_elements.specs.Outcomes.{gives};
ghost use Rattle.ref_mem.specs.Reads.{one_cell};
ghost use Rattle.ref_state.specs.declared.frames.Frame.{Frame};
ghost use Rattle.ref_statements.specs.Nodes.{do_row};
ghost use Rattle.ref_statements.specs.Rows.{computes};
ghost use Rattle.ref_machine.specs.Standing.{AreStanding};

use core_tree::trees::Trees;
use ref_places::places::own_instance;
use ref_start::standing::{Standing, first_of, named_key};
use ref_state::state::State;

/// The instance that a node without operands names, if the top frame has none of its object, and one is kept for it. It takes no
/// memory, and looks through the frame's own instances alone.
pub fn standing_at(trees: &Trees<'_>, standing: &Standing, state: &State, n: u32) -> Option<u32>
    requires { AreStanding standing.now state.now.memory }
    ensures { IfSome result (λ i. (f : Frame) (rest : List Frame) (word : ℕ) → state.now.frames ≡ f ∷ rest →
        do_row (core_of trees.now) state.now.memory f n word ≡ computes f n (gives state.now.memory (one_cell (Pointer i [] false)))) }
{
    let key = named_key(trees, n)?;
    let frame = state.frames.top()?;
    let memory = state.memory.instances();
    match own_instance(memory, key, frame.instances.as_slice()) {
        Some(_) => None,
        None => first_of(standing, key),
    }
}

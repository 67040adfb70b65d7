// Frames counted from the top.

ghost use Rattle.std.specs.Prelude.{◌≡◌, ◌<◌, [], Some, None, length, slice_get, slice_set};

use c_types::key::ObjectKey;
use pta_base::Listing;
use ref_state::frames::{Frame, Frames};
use ref_state::items::Items;
use std::alloc::Global;
use std::mem;

/// A frame that does nothing. It takes no memory.
pub fn no_frame(alloc: Global) -> Frame
    ensures { result ≡ record { function = ObjectKey.Function 0; call = None; by = None; instances = []; items = [] } }
{
    Frame {
        function: ObjectKey::Function(0),
        call: None,
        by: None,
        instances: Listing::new(alloc),
        items: Items::new(alloc),
    }
}

/// How many frames there are.
pub fn depth(frames: &Frames) -> usize
    ensures { result ≡ length frames.now }
{
    frames.list.len()
}

/// Puts a frame in place of the k-th one, counted from the top, and gives that. It takes no memory.
pub fn replace(frames: &mut Frames, k: usize, frame: Frame) -> Frame
    requires { k < length frames.old }
    ensures old { slice_get frames.old k ≡ Some result }
    ensures new { frames.new ≡ slice_set frames.old k frame }
{
    let at = frames.list.len() - 1 - k;
    mem::replace(&mut frames.list[at], frame)
}

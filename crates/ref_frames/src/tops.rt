// Frames, whose items change in place.

ghost use Rattle.std.specs.Prelude.{◌≡◌, ◌<◌, ◌∷◌, OnOk, OnErr, length};
ghost use Rattle.ref_state.specs.Items.{opened, below_filled, below_shut, settled};
ghost use Rattle.ref_frames.specs.Tops.{items_at, with_top};

use crate::frames::{no_frame, replace};
use c_types::term::OutOfMemory;
use ref_cells::cells::Value;
use ref_state::frames::Frames;
use ref_state::items::{Item, Items};
use std::alloc::Global;

/// Opens a place for the value of a node below the top item of the top frame. At `Err` nothing changes.
pub fn open(alloc: Global, frames: &mut Frames, n: u32) -> Result<(), OutOfMemory>
    requires { 0 < length frames.old }
    ensures ok { OnOk result (frames.new ≡ items_at (opened n) 0 frames.old) }
    ensures err { OnErr result (frames.new ≡ frames.old) }
{
    let mut frame = replace(frames, 0, no_frame(alloc));
    let opened = frame.items.open(alloc, n);
    let _none = replace(frames, 0, frame);
    opened
}

/// The place that was opened in the top frame gets its value, and the top item goes. It takes no memory.
pub fn fill(alloc: Global, frames: &mut Frames, value: Value)
    requires { 0 < length frames.old }
    ensures { frames.new ≡ items_at (below_filled value) 0 frames.old }
{
    let mut frame = replace(frames, 0, no_frame(alloc));
    frame.items.fill(value);
    let _none = replace(frames, 0, frame);
}

/// The place that was opened in the top frame goes. It takes no memory.
pub fn shut(alloc: Global, frames: &mut Frames)
    requires { 0 < length frames.old }
    ensures { frames.new ≡ items_at below_shut 0 frames.old }
{
    let mut frame = replace(frames, 0, no_frame(alloc));
    frame.items.shut(alloc);
    let _none = replace(frames, 0, frame);
}

/// The top item of the k-th frame is done: the value of its node goes to the item below. At `Err` nothing changes.
pub fn settle(
    alloc: Global,
    frames: &mut Frames,
    k: usize,
    n: u32,
    value: Value,
) -> Result<(), OutOfMemory>
    requires { k < length frames.old }
    ensures ok { OnOk result (frames.new ≡ items_at (settled n value) k frames.old) }
    ensures err { OnErr result (frames.new ≡ frames.old) }
{
    let mut frame = replace(frames, k, no_frame(alloc));
    let settled = frame.items.settle(n, value);
    let _none = replace(frames, k, frame);
    settled
}

/// Puts an item on top of those of the top frame. At `Err` nothing changes.
pub fn push(alloc: Global, frames: &mut Frames, item: Item) -> Result<(), OutOfMemory>
    requires { 0 < length frames.old }
    ensures ok { OnOk result (frames.new ≡ items_at (λ items. item ∷ items) 0 frames.old) }
    ensures err { OnErr result (frames.new ≡ frames.old) }
{
    let mut frame = replace(frames, 0, no_frame(alloc));
    let pushed = frame.items.push(item);
    let _none = replace(frames, 0, frame);
    pushed
}

/// Puts an item in place of the top one of the top frame. It takes no memory.
pub fn replace_item(alloc: Global, frames: &mut Frames, item: Item)
    requires { 0 < length frames.old }
    ensures { frames.new ≡ items_at (with_top item) 0 frames.old }
{
    let mut frame = replace(frames, 0, no_frame(alloc));
    put_top(&mut frame.items, item);
    let _none = replace(frames, 0, frame);
}

// Puts an item in place of the top one.
fn put_top(items: &mut Items, item: Item)
    ensures { items.new ≡ with_top item items.old }
{
    if items.len() > 0 {
        items.replace_top(item);
    }
}

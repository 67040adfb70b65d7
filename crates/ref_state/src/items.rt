// What a frame has still to do.

ghost use Rattle.std.specs.Prelude.{◌≡◌, [], ◌∷◌, ◌++◌, ◌<◌, ◌≤◌, IfOk, OnOk, OnErr, length, slice_get, remove, drop};
ghost use Rattle.std.specs.Option.{option_copied};
ghost use Rattle.ref_state.specs.Items.{given, settled, top_values, top_left, values_of, left_of, with_left, filled, shut};
ghost use Rattle.ref_state.specs.Items.{operand_taken, replaced, opened, below_filled, below_shut, on_second};
ghost use Rattle.ref_state.specs.Values.{no_value};

use c_types::term::OutOfMemory;
use pta_base::Listing;
use ref_cells::cells::Value;
use ref_cells::instance::Instance;
use ref_mem::memory::Memory;
use std::alloc::Global;
use std::marker::Model;
use std::mem;

/// What a frame does: a node; a node that waits for operands, with those that are left and the values of those that are
/// there; a function of the library that a node calls; the return of a value.
#[derive(Drop)]
pub enum Item {
    Do(u32),
    Wait {
        node: u32,
        left: Listing<u32>,
        values: Listing<(u32, Value)>,
    },
    Library {
        node: u32,
        function: u32,
        arguments: Listing<Value>,
    },
    Result(Value),
}

/// Items one above the other. Contracts see them as a list, the top one first.
#[derive(Drop)]
pub struct Items {
    list: Vec<Item>,
}

impl Model for Items {
    ghost use Rattle.std.specs.Prelude.{List, reverse};
    ghost use Rattle.ref_state.specs.declared.items.Item.{Item};

    ghost Value = { List Item };

    ghost view = { λ s. reverse s.list.items };
}

/// A node that waits for these operands.
pub fn wait(alloc: Global, node: u32, left: Listing<u32>) -> Item
    ensures { result ≡ Item.Wait node left [] }
{
    Item::Wait {
        node,
        left,
        values: Listing::new(alloc),
    }
}

// The values of an item.
fn values_of(item: &Item) -> &[(u32, Value)]
    ensures { result.now ≡ values_of item.now }
{
    match item {
        Item::Wait { values, .. } => values.as_slice(),
        Item::Do(_) | Item::Library { .. } | Item::Result(_) => &[],
    }
}

// The operands that are left to an item.
fn left_of(item: &Item) -> &[u32]
    ensures { result.now ≡ left_of item.now }
{
    match item {
        Item::Wait { left, .. } => left.as_slice(),
        Item::Do(_) | Item::Library { .. } | Item::Result(_) => &[],
    }
}

// The i-th of the operands that are left to an item.
fn operand_at(item: &Item, i: usize) -> Option<u32>
    ensures { result ≡ slice_get (left_of item.now) i }
{
    left_of(item).get(i).copied()
}

// The operands that are left to an item but for one.
fn others(alloc: Global, item: &Item, i: usize) -> Result<Listing<u32>, OutOfMemory>
    requires { i < length (left_of item.now) }
    ensures { IfOk result (λ left. left ≡ remove (left_of item.now) i) }
{
    match item {
        Item::Wait { left, .. } => {
            let mut list = Vec::from_slice(alloc, left.as_slice())?;
            let _ = list.remove(i);
            Ok(Listing::of(list))
        }
        Item::Do(_) | Item::Library { .. } | Item::Result(_) => Ok(Listing::new(alloc)),
    }
}

// An item waits for these operands now.
fn keep(item: &mut Item, others: Listing<u32>)
    ensures { item.new ≡ with_left others item.old }
{
    match item {
        Item::Wait { left, .. } => *left = others,
        Item::Do(_) | Item::Library { .. } | Item::Result(_) => {}
    }
}

// An item has a place for the value of a node.
fn open(alloc: Global, item: &mut Item, n: u32) -> Result<(), OutOfMemory>
    ensures ok { OnOk result (item.new ≡ given n no_value item.old) }
    ensures err { OnErr result (item.new ≡ item.old) }
{
    match item {
        Item::Wait { values, .. } => {
            values.push((n, Value::none(alloc)))?;
            Ok(())
        }
        Item::Do(_) | Item::Library { .. } | Item::Result(_) => Ok(()),
    }
}

// The last value of an item is that one.
fn fill(item: &mut Item, value: Value)
    ensures { item.new ≡ filled value item.old }
{
    match item {
        Item::Wait { values, .. } => {
            let count = values.len();
            if count > 0 {
                let n = values.as_slice()[count - 1].0;
                values.set(count - 1, (n, value));
            }
        }
        Item::Do(_) | Item::Library { .. } | Item::Result(_) => {}
    }
}

// An item without its last value.
fn shut(alloc: Global, item: &mut Item)
    ensures { item.new ≡ shut item.old }
{
    match item {
        Item::Wait { values, .. } => {
            let mut list = mem::replace(values, Listing::new(alloc)).into_vec();
            let _ = list.pop();
            *values = Listing::of(list);
        }
        Item::Do(_) | Item::Library { .. } | Item::Result(_) => {}
    }
}

impl Items {
    /// No items.
    pub fn new(alloc: Global) -> Items
        ensures { result ≡ [] }
    {
        Items {
            list: Vec::new(alloc),
        }
    }

    /// These items, the top one first.
    pub fn of(list: Vec<Item>) -> Items
        ensures { result ≡ list.items }
    {
        let mut list = list;
        list.reverse();
        Items { list }
    }

    /// An item alone.
    pub fn one(alloc: Global, item: Item) -> Result<Items, OutOfMemory>
        ensures { IfOk result (λ items. items ≡ item ∷ []) }
    {
        let mut items = Items::new(alloc);
        items.push(item)?;
        Ok(items)
    }

    /// How many items there are.
    pub fn len(&self) -> usize
        ensures { result ≡ length self.now }
    {
        self.list.len()
    }

    /// The top item.
    pub fn top(&self) -> Option<&Item>
        ensures { option_copied result ≡ slice_get self.now 0 }
    {
        self.list.last()
    }

    /// The values that the top item has.
    pub fn values(&self) -> &[(u32, Value)]
        ensures { result.now ≡ top_values self.now }
    {
        match self.list.last() {
            Some(item) => values_of(item),
            None => &[],
        }
    }

    /// The operands that are left to the top item.
    pub fn left(&self) -> &[u32]
        ensures { result.now ≡ top_left self.now }
    {
        match self.list.last() {
            Some(item) => left_of(item),
            None => &[],
        }
    }

    /// The item behind so many at the top.
    pub fn from_top(&self, i: usize) -> Option<&Item>
        ensures { option_copied result ≡ slice_get self.now i }
    {
        if i < self.list.len() {
            Some(&self.list[self.list.len() - 1 - i])
        } else {
            None
        }
    }

    /// Puts an item on top. At `Err` nothing changes.
    pub fn push(&mut self, item: Item) -> Result<(), OutOfMemory>
        ensures ok { OnOk result (self.new ≡ item ∷ self.old) }
        ensures err { OnErr result (self.new ≡ self.old) }
    {
        match self.list.push(item) {
            Ok(()) => Ok(()),
            Err(_) => Err(OutOfMemory),
        }
    }

    /// Does the i-th of the top item's operands next. At `Err` nothing changes.
    pub fn take(&mut self, alloc: Global, i: usize) -> Result<(), OutOfMemory>
        ensures ok { OnOk result (self.new ≡ operand_taken i self.old) }
        ensures err { OnErr result (self.new ≡ self.old) }
    {
        let Some(item) = self.list.last() else {
            return Ok(());
        };
        let Some(c) = operand_at(item, i) else {
            return Ok(());
        };
        let left = others(alloc, item, i)?;
        self.push(Item::Do(c))?;
        self.keep_below(left);
        Ok(())
    }

    // The item below the top one waits for these operands now.
    fn keep_below(&mut self, left: Listing<u32>)
        requires { 1 < length self.old }
        ensures { self.new ≡ on_second (with_left left) self.old }
    {
        let at = self.list.len() - 2;
        keep(&mut self.list[at], left);
    }

    /// Takes the top item off. It takes no memory.
    pub fn pop(&mut self)
        ensures { self.new ≡ drop 1 self.old }
    {
        let _top = self.list.pop();
    }

    /// Puts an item in place of the top one. It takes no memory.
    pub fn replace_top(&mut self, item: Item)
        requires { 0 < length self.old }
        ensures { self.new ≡ item ∷ drop 1 self.old }
    {
        let at = self.list.len() - 1;
        self.list[at] = item;
    }

    /// Opens a place for the value of a node below the top item. At `Err` nothing changes.
    pub fn open(&mut self, alloc: Global, n: u32) -> Result<(), OutOfMemory>
        ensures ok { OnOk result (self.new ≡ opened n self.old) }
        ensures err { OnErr result (self.new ≡ self.old) }
    {
        if self.list.len() > 1 {
            let at = self.list.len() - 2;
            open(alloc, &mut self.list[at], n)?;
        }
        Ok(())
    }

    /// The place that was opened gets its value, and the top item goes. It takes no memory.
    pub fn fill(&mut self, value: Value)
        ensures { self.new ≡ below_filled value self.old }
    {
        if self.list.len() > 1 {
            let at = self.list.len() - 2;
            fill(&mut self.list[at], value);
        }
        self.pop();
    }

    /// The place that was opened goes. It takes no memory.
    pub fn shut(&mut self, alloc: Global)
        ensures { self.new ≡ below_shut self.old }
    {
        if self.list.len() > 1 {
            let at = self.list.len() - 2;
            shut(alloc, &mut self.list[at]);
        }
    }

    /// The top item is done: the value of its node goes to the item below. At `Err` nothing changes.
    pub fn settle(&mut self, n: u32, value: Value) -> Result<(), OutOfMemory>
        ensures ok { OnOk result (self.new ≡ settled n value self.old) }
        ensures err { OnErr result (self.new ≡ self.old) }
    {
        if self.list.len() > 1 {
            let at = self.list.len() - 2;
            give(&mut self.list[at], n, value)?;
        }
        self.pop();
        Ok(())
    }
}

// An item that waits takes the value of a node. At `Err` nothing changes.
fn give(item: &mut Item, n: u32, value: Value) -> Result<(), OutOfMemory>
    ensures ok { OnOk result (item.new ≡ given n value item.old) }
    ensures err { OnErr result (item.new ≡ item.old) }
{
    match item {
        Item::Wait { values, .. } => {
            values.push((n, value))?;
            Ok(())
        }
        Item::Do(_) | Item::Library { .. } | Item::Result(_) => Ok(()),
    }
}

/// Puts objects behind those of a memory, and items in place of so many at the top. At `Err` nothing has changed.
pub(crate) fn put_in_place(
    memory: &mut Memory,
    items: &mut Items,
    fresh: Vec<Instance>,
    off: usize,
    on: Items,
) -> Result<(), OutOfMemory>
    requires { off ≤ length items.old }
    ensures memory { OnOk result (memory.new ≡ memory.old ++ fresh.items) }
    ensures items { OnOk result (items.new ≡ replaced off on items.old) }
    ensures err { OnErr result ((memory.new ≡ memory.old) × (items.new ≡ items.old)) }
{
    let mut on = on.list;
    items.list.reserve(on.len())?;
    memory.append(fresh)?;
    items.list.truncate(items.list.len() - off);
    match items.list.append(&mut on) {
        Ok(()) => Ok(()),
        Err(_) => unreachable!(),
    }
}

// The function around each node.

ghost use Rattle.std.specs.Prelude.{◌≡◌, ℕ, ◌<◌, ◌^◌, All, IfOk, IfSome, Option, Some, length, slice_get};
ghost use Rattle.core_tree.specs.declared.node.Node.{Node};
ghost use Rattle.core_tree.specs.Typed.{trees_in};
ghost use Rattle.core_tree.specs.Range.{InRange};
ghost use Rattle.row_numbers.specs.Around.{AreOwners, PassesDown, IsBegun, PassesTo, nobody, body_of};

use core_tree::{Entity, Node, Program, Storage};
use pta_base::OutOfMemory;
use std::alloc::Global;

// The owner of a node goes to its children.
fn pass_down(owners: &mut Vec<Option<u32>>, children: &[u32], owner: u32)
    requires { All (λ child. child < length owners.old.items) children.now }
    ensures { PassesDown owners.old.items owners.new.items children.now owner }
{
    for child in children {
        owners[*child as usize] = Some(owner);
    }
}

// No owner for each node.
fn no_owners(alloc: Global, nodes: usize) -> Result<Vec<Option<u32>>, OutOfMemory>
    ensures { IfOk result (λ owners. owners.items ≡ nobody nodes) }
{
    let owners = (0..nodes).map(|_| None).collect(alloc)?;
    Ok(owners)
}

// The body of a function.
fn body_of(entity: &Entity) -> Option<u32>
    ensures { result ≡ body_of entity.now }
{
    match entity.storage {
        Storage::FunctionBody => entity.body,
        _ => None,
    }
}

// Each function's body has its function as owner.
fn begin(owners: &mut Vec<Option<u32>>, entities: &[Entity])
    requires room { length entities.now < 2 ^ 32 }
    requires bodies { All (λ entity. IfSome entity.body (λ body. body < length owners.old.items)) entities.now }
    requires none { owners.old.items ≡ nobody (length owners.old.items) }
    ensures { IsBegun owners.new.items (length owners.old.items) entities.now }
{
    for (f, entity) in entities.iter().enumerate() {
        if let Some(body) = body_of(entity) {
            owners[body as usize] = Some(f as u32);
        }
    }
}

// From the last node down, the owner of each node goes to its children.
fn fill(owners: &mut Vec<Option<u32>>, nodes: &[Node])
    requires each { length owners.old.items ≡ length nodes.now }
    requires children { (n : ℕ) (node : Node) → slice_get nodes.now n ≡ Some node → All (λ child. child < n) node.children }
    ensures { PassesTo owners.old.items owners.new.items nodes.now 0 }
{
    for n in (0..nodes.len()).rev() {
        if let Some(owner) = owners[n] {
            pass_down(owners, nodes[n].children.as_slice(), owner);
        }
    }
}

/// The function around each node.
pub fn owners_of(alloc: Global, program: &Program) -> Result<Vec<Option<u32>>, OutOfMemory>
    requires range { InRange (trees_in program.now) }
    requires room { length program.now.entities.items < 2 ^ 32 }
    ensures { IfOk result (λ owners. AreOwners (trees_in program.now) owners.items) }
{
    let nodes = program.nodes.as_slice();
    let mut owners = no_owners(alloc, nodes.len())?;
    begin(&mut owners, program.entities.as_slice());
    fill(&mut owners, nodes);
    Ok(owners)
}

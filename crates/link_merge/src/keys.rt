//! Lists of numbers that tell member lists apart, under the numbers that tags have at present.

ghost use Rattle.std.specs.Prelude.{◌≡◌, ◌<◌, ◌≤◌, ◌+◌, ◌++◌, ◌∷◌, IfOk, IfSome, OnOk, All, length};
ghost use Rattle.link_model.specs.Units.{IsTag};
ghost use Rattle.link_merge.specs.Codes.{name_code, bits_code, member_code, members_code, AreFirstIds};
ghost use Rattle.link_merge.specs.Counted.{AreOfTags};
ghost use Rattle.link_merge.specs.Keys.{own_code, tag_code, AllStand};

use crate::lists::own_list;
use c_types::table::TypeTable;
use c_types::term::{MemberTerm, Name, TypeId};
use core_tree::Unit;
use link_model::Item;
use pta_base::OutOfMemory;
use std::alloc::Global;

/// For each type of a table the first one that is the same.
pub fn first_ids(alloc: Global, types: &TypeTable) -> Result<Vec<u32>, OutOfMemory>
    ensures { IfOk result (λ list. AreFirstIds types.now list.items) }
{
    let mut list = Vec::new(alloc);
    for id in 0..types.type_count() {
        list.push(types.first_same(TypeId(id)).0)?;
    }
    Ok(list)
}

// The code of a name.
fn add_name(list: &mut Vec<u64>, name: &Option<Name>) -> Result<(), OutOfMemory>
    ensures { OnOk result (list.new.items ≡ list.old.items ++ name_code name.now) }
{
    match name {
        Some(name) => {
            let text = name.as_str().as_bytes();
            list.push(text.len() as u64 + 1)?;
            for byte in text {
                list.push(u64::from(*byte))?;
            }
        }
        None => list.push(0)?,
    }
    Ok(())
}

// The code of a width.
fn bits_code(bits: Option<u8>) -> u64
    ensures { result ≡ bits_code bits }
{
    match bits {
        Some(bits) => u64::from(bits) + 1,
        None => 0,
    }
}

// The code of a member of a unit whose types begin at that number, given the first of the same type for each type.
fn add_member(
    list: &mut Vec<u64>,
    member: &MemberTerm,
    firsts: &[u32],
    start: u32,
) -> Result<(), OutOfMemory>
    requires { start + member.now.ty.0 < length firsts.now }
    ensures { OnOk result (list.new.items ≡ list.old.items ++ member_code firsts.now start member.now) }
{
    add_name(list, &member.name)?;
    list.push(bits_code(member.bits))?;
    list.push(u64::from(firsts[start as usize + member.ty.0 as usize]))?;
    Ok(())
}

// The code of a member list of a unit whose types begin at that number.
fn add_members(
    list: &mut Vec<u64>,
    members: &[MemberTerm],
    firsts: &[u32],
    start: u32,
) -> Result<(), OutOfMemory>
    requires { All (λ m. start + m.ty.0 < length firsts.now) members.now }
    ensures { OnOk result (list.new.items ≡ list.old.items ++ members_code firsts.now start members.now) }
{
    for member in members {
        add_member(list, member, firsts, start)?;
    }
    Ok(())
}

// The code of the list that a tag has in its own unit.
fn add_own(
    list: &mut Vec<u64>,
    units: &[Unit],
    type_starts: &[u32],
    firsts: &[u32],
    tag: Item,
) -> Result<(), OutOfMemory>
    requires tag { IsTag units.now tag }
    requires stand { AllStand units.now type_starts.now (length firsts.now) }
    ensures { OnOk result (list.new.items ≡ list.old.items ++ own_code units.now type_starts.now firsts.now tag) }
{
    if let Some(members) = own_list(units, tag) {
        let start = type_starts[tag.unit as usize];
        add_members(list, members, firsts, start)?;
    }
    Ok(())
}

/// The key of a tag in a round: its leader so far and the code of the list that counts.
pub fn tag_key(
    alloc: Global,
    units: &[Unit],
    type_starts: &[u32],
    firsts: &[u32],
    tags: &[Item],
    leader: u32,
    counted: Option<u32>,
) -> Result<Vec<u64>, OutOfMemory>
    requires tags { AreOfTags units.now tags.now }
    requires counted { IfSome counted (λ h. h < length tags.now) }
    requires stand { AllStand units.now type_starts.now (length firsts.now) }
    ensures { IfOk result (λ key. key.items ≡ leader ∷ tag_code units.now type_starts.now firsts.now tags.now counted) }
{
    let mut list = Vec::new(alloc);
    list.push(u64::from(leader))?;
    if let Some(h) = counted {
        add_own(&mut list, units, type_starts, firsts, tags[h as usize])?;
    }
    Ok(list)
}

// Units as text: an entity on each line, in the order of their places, and then a tag on each.

use crate::page::Page;
use crate::trees::{Shown, write_entity, write_tree};
use crate::types::write_type;
use c_types::term::MemberTerm;
use core_tree::node::{Entity, Linkage, Storage, Unit};
use std::alloc::Global;
use std::test::Fail;

// A letter for a linkage.
fn linkage_letter(linkage: Linkage) -> &'static str {
    match linkage {
        Linkage::External => "E",
        Linkage::Internal => "I",
        Linkage::Local => "L",
    }
}

// A letter for a storage.
fn storage_letter(storage: Storage) -> &'static str {
    match storage {
        Storage::Static => "S",
        Storage::Automatic => "A",
        Storage::FunctionBody => "F",
        Storage::Parameter => "P",
        Storage::Declared => "D",
    }
}

// The name, the column, the linkage, the storage and the type of an entity.
fn write_declared(shown: Shown<'_>, out: &mut Page, entity: &Entity) {
    out.say("\n");
    out.say(entity.name.as_str());
    out.say("#");
    out.number(i128::from(entity.place.column));
    out.say(" ");
    out.say(linkage_letter(entity.linkage));
    out.say(storage_letter(entity.storage));
    out.say(" ");
    write_type(shown.alloc, out, shown.unit, entity.ty);
}

// The column of the first use of an entity.
fn write_used(shown: Shown<'_>, out: &mut Page, entity: &Entity) {
    if let Some(place) = entity.used {
        out.say(" used ");
        out.number(i128::from(place.column));
    }
}

// The function of an entity.
fn write_owner(shown: Shown<'_>, out: &mut Page, entity: &Entity) {
    if let Some(owner) = entity.owner {
        out.say(" in ");
        write_entity(shown, out, owner);
    }
}

// The body of an entity.
fn write_body(shown: Shown<'_>, out: &mut Page, entity: &Entity) {
    if let Some(body) = entity.body {
        out.say(" = ");
        write_tree(shown, out, body);
    }
}

// The entities at a column.
fn write_at(shown: Shown<'_>, out: &mut Page, column: u32) {
    for entity in &shown.unit.entities {
        if entity.place.column == column && entity.place.line == 1 {
            write_declared(shown, out, entity);
            write_used(shown, out, entity);
            write_owner(shown, out, entity);
            write_body(shown, out, entity);
        }
    }
}

// A member with its type and its width.
fn write_member(shown: Shown<'_>, out: &mut Page, member: &MemberTerm) {
    out.say(" ");
    if let Some(name) = &member.name {
        out.say(name.as_str());
    }
    out.say(":");
    write_type(shown.alloc, out, shown.unit, member.ty);
    if let Some(bits) = member.bits {
        out.say(".");
        out.number(i128::from(bits));
    }
}

// The members of a tag.
fn write_members(shown: Shown<'_>, out: &mut Page, tag: u32) {
    if tag >= shown.unit.types.tag_count() {
        out.lacks = true;
        return;
    }
    let Some(members) = shown.unit.types.members(tag) else {
        out.say(" incomplete");
        return;
    };
    for member in members {
        write_member(shown, out, member);
    }
}

// The key and the members of a tag.
fn write_tag(shown: Shown<'_>, out: &mut Page, key: &str, tag: usize) {
    out.say("\n<");
    out.say(key);
    out.say(">");
    if tag > u32::MAX as usize {
        out.lacks = true;
        return;
    }
    write_members(shown, out, tag as u32);
}

// The keys and the members of the tags, in the order of their numbers.
fn write_tags(shown: Shown<'_>, out: &mut Page) {
    for (tag, key) in shown.unit.tags.iter().enumerate() {
        match key {
            Some(text) => write_tag(shown, out, text.as_str(), tag),
            None => write_tag(shown, out, "", tag),
        }
    }
}

/// The text of a unit whose own text is one line of so many columns, with or without the columns of its nodes.
pub(crate) fn unit_text(
    alloc: Global,
    unit: &Unit,
    columns: u32,
    placed: bool,
) -> Result<String, Fail> {
    let shown = Shown {
        alloc,
        unit,
        placed,
    };
    let mut out = Page::new(alloc);
    for column in 0..columns {
        write_at(shown, &mut out, column);
    }
    write_tags(shown, &mut out);
    out.whole()
}

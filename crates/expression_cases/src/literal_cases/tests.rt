// Compound literals (C11 6.5.2.5) in expressions: their core nodes, and the entities that the unit gains.

use core_tree::node::{Entity, Linkage, NodeKind, Storage, Unit};
use expression_texts::texts::{
    Refusal, WITHIN, answer, answer_outside, are_numbers, has_shapes, is_refusal, place_at, refusal,
};
use pta_base::Kind;
use std::alloc::Global;
use std::test::Fail;

// The number of the first entity that an expression can make.
const FIRST: usize = 11;

// The size of an entity's type.
fn size_of(unit: &Unit, entity: &Entity) -> Option<u64> {
    if entity.ty.0 < unit.types.type_count() {
        unit.types.size_of(entity.ty)
    } else {
        None
    }
}

// The number in that position of a text in which numbers stand with dots between them.
fn number(text: &str, at: usize) -> u32 {
    let number = text.split('.').nth(at).unwrap_or("");
    number.parse().unwrap_or(u32::MAX)
}

// Whether an entity is that object, with that storage and that owner. A text tells the object of a compound literal: its column, the size
// of its type, and the node of its initialiser.
fn is_object(
    unit: &Unit,
    entity: &Entity,
    object: &str,
    storage: Storage,
    owner: Option<u32>,
) -> bool {
    entity.name.as_str().is_empty()
        && entity.unit == place_at(1).unit
        && entity.place == place_at(number(object, 0))
        && size_of(unit, entity) == Some(u64::from(number(object, 1)))
        && entity.linkage == Linkage::Local
        && entity.storage == storage
        && entity.owner == owner
        && entity.body == Some(number(object, 2))
        && entity.used.is_none()
}

// Whether the last entities of a unit are these objects, and there are no others that are new; a dash is none.
fn has_objects(unit: &Unit, objects: &str, storage: Storage, owner: Option<u32>) -> bool {
    if objects == "-" {
        return unit.entities.len() == FIRST;
    }
    let mut count = FIRST;
    for object in objects.split(' ') {
        match unit.entities.get(count) {
            Some(entity) if is_object(unit, entity, object, storage, owner) => {}
            _ => return false,
        }
        count = count.saturating_add(1);
    }
    unit.entities.len() == count
}

// The entities that literals and initialisers name.
fn numbers_of(alloc: Global, unit: &Unit) -> Result<Vec<u32>, Fail> {
    let mut numbers = Vec::new(alloc);
    for node in unit.nodes.as_slice() {
        match &node.kind {
            NodeKind::Literal(entity) => numbers.push(*entity)?,
            NodeKind::Initialise { entity, .. } => numbers.push(*entity)?,
            _ => {}
        }
    }
    Ok(numbers)
}

// Whether a unit has what the fields of a row behind its text say.
fn has_row(
    alloc: Global,
    unit: &Unit,
    row: &str,
    storage: Storage,
    owner: Option<u32>,
) -> Result<bool, Fail> {
    let numbers = numbers_of(alloc, unit)?;
    let mut fields = row.split(" => ").skip(1);
    let shapes = fields.next().unwrap_or("");
    let named = fields.next().unwrap_or("");
    let objects = fields.next().unwrap_or("");
    Ok(
        has_shapes(unit, shapes)
            && are_numbers(numbers.as_slice(), named)
            && has_objects(unit, objects, storage, owner),
    )
}

// The text of a row.
fn text_of<'a>(row: &'a str) -> &'a str {
    row.split(" => ").next().unwrap_or("")
}

// Whether the text of a row gives in a function what the row says; what begins with a hash mark and a space is a remark.
fn gives_within(alloc: Global, row: &str) -> Result<bool, Fail> {
    if row.starts_with("# ") {
        return Ok(true);
    }
    let (unit, _known, refusal) = answer(alloc, text_of(row))?;
    Ok(refusal.is_none() && has_row(alloc, &unit, row, Storage::Automatic, Some(WITHIN))?)
}

// Whether it gives that outside of functions.
fn gives_outside(alloc: Global, row: &str) -> Result<bool, Fail> {
    let (unit, _known, refusal) = answer_outside(alloc, text_of(row))?;
    Ok(refusal.is_none() && has_row(alloc, &unit, row, Storage::Static, None)?)
}

// Texts in a function, written by hand, each with its core nodes (see `gives`), the entities that its literals and their initialisers
// name, in the order of the nodes, and its objects (see `is_object`).
const WITHIN_FUNCTIONS: &str =
    "# The place of the literal is its parenthesis, that of its initialiser the brace.
(int){1} => 17 I6:0 {1:1 => 11.11 => 1.4.1
# As an operand it is read like any object (C11 6.3.2.1p2).
(int){1}+a => 17 I6:0 {1:1 a10 F1:2 F10:3 +9:4.5 => 11.11 => 1.4.1
# It is an lvalue, so it has an address (C11 6.5.2.5p4).
&(int){2} => 28 I7:0 {2:1 &1:2 => 11.11 => 2.4.1
# A structure that is known, and a member of it.
(struct s){'\\t',p}.y => 912 c17 C12:0 F17:1 I11:2.3 {1:4 M19:5 => 11.11 => 1.16.4
# An element that a designator names, and the next one (C11 6.7.9p17).
(int[3]){[1]=a,7} => a14 716 F14:0 I9:2.1 {1:3 => 11.11 => 1.12.3
# The initialiser completes a type of unknown length (C11 6.5.2.5p5, 6.7.9p22).
(int[]){1,2} => 19 211 I8:0.1 {1:2 => 11.11 => 1.8.2
# A literal in a literal comes first.
(int*[]){&(int){1},p} => 117 I16:0 {11:1 &10:2 c20 F20:4 I9:3.5 {1:6 => 11.11.12.12 => 11.4.1 1.16.6
# What is only looked at leaves nothing, also of a length that the initialiser gives (C11 6.5.3.4p2).
sizeof(int){1} => 41 => - => -
sizeof(char[]){1,2,3} => 31 => - => -
# A string in a literal is an array of its own, to which the member points.
(struct{char*m;}){\"ab\"} => T19 D19:0 I18:1 {1:2 => 11.11 => 1.8.2
# Two literals are two objects, in their order.
(int){1},(int){2} => 17 I6:0 {1:1 216 I15:3 {10:4 F1:2 F10:5 ,9:6.7 => 11.11.12.12 => 1.4.1 10.4.4
# What is assigned to it is assigned to the object.
(int){a}=b => a7 F7:0 I6:1 {1:2 b10 F10:4 A9:3.5 => 11.11 => 1.4.2
# A literal of a structure that the expression itself declares.
(struct u{int i;}){5}.i => 520 I19:0 {1:1 M22:2 => 11.11 => 1.4.1";

#[test]
fn literals_within_functions(rt: HostRuntime) -> Result<(), Fail> {
    for row in WITHIN_FUNCTIONS.split('\n') {
        assert!(rt; gives_within(rt.alloc(), row)?, "{row}");
    }
    Ok(())
}

// Outside of functions a literal lives for the whole run, and no function owns it (C11 6.5.2.5p5).
const OUTSIDE_FUNCTIONS: &str = "int*r=&(int){1}; => 114 I13:0 {8:1 &7:2 => 11.11 => 8.4.1";

#[test]
fn literals_outside_functions(rt: HostRuntime) -> Result<(), Fail> {
    for row in OUTSIDE_FUNCTIONS.split('\n') {
        assert!(rt; gives_outside(rt.alloc(), row)?, "{row}");
    }
    Ok(())
}

// What isn't known stays unknown in a literal; what doesn't fit is refused before (C11 6.5.2.5p1, p2).
static REFUSED: [(&str, Kind, u32); 5] = [
    ("(int){q}", Kind::NotBuilt, 1),
    ("(struct r){1}", Kind::NotBuilt, 1),
    ("(int){1,2}", Kind::Initialiser, 9),
    ("(void){1}", Kind::Initialiser, 7),
    ("(int){z}", Kind::Operand, 7),
];

#[test]
fn literals_refused(rt: HostRuntime) -> Result<(), Fail> {
    for (text, kind, column) in &REFUSED {
        let found: Option<Refusal> = refusal(rt.alloc(), text)?;
        assert!(rt; is_refusal(found, *kind, *column), "{text:?}");
    }
    Ok(())
}

// Programs of one unit that are built from their texts, and their locations.

ghost use Rattle.std.specs.Prelude.{◌≡◌, ◌<◌, ◌≤◌, None, IfOk, IsTrue, length};
ghost use Rattle.c_types.specs.Table.{type_of};
ghost use Rattle.c_types.specs.Made.{ArePlain, IsComplete};

use crate::fields::{number, word};
use crate::programs::PROGRAMS;
use c_types::key::ObjectKey;
use c_types::table::TypeTable;
use c_types::term::{Form, MemberTerm, Name, OutOfMemory, PathStep, Term, TypeId, TypeList};
use core_tree::held::{Children, HeldList, Number};
use core_tree::{Entity, Linkage, Node, NodeKind, Program, Storage};
use obj_space::{Space, objects};
use pta_base::{Place, Text};
use std::alloc::Global;
use std::test::Fail;

/// A program of one unit that is built piece by piece, and its types in the order of its text.
#[derive(Drop)]
struct Draft {
    alloc: Global,
    ids: Vec<TypeId>,
    program: Program,
}

// Whether a member's type is complete, and it is no bit-field.
fn is_plain(table: &TypeTable, member: &MemberTerm) -> bool
    ensures { IsTrue result → (member.now.ty.0 < length table.now.terms)
        × IsComplete table.now (type_of table.now member.now.ty.0) × (member.now.bits ≡ None) }
{
    if table.type_count() <= member.ty.0 {
        return false;
    }
    match table.size_of(member.ty) {
        Some(_) => member.bits.is_none(),
        None => false,
    }
}

fn are_plain(table: &TypeTable, members: &[MemberTerm]) -> bool
    ensures { IsTrue result → ArePlain table.now members.now }
{
    members.iter().all(|member| is_plain(table, member))
}

// A new structure of these members.
fn new_structure(table: &mut TypeTable, members: Vec<MemberTerm>) -> Result<TypeId, OutOfMemory>
    requires { ArePlain table.old members.items }
    ensures id { IfOk result (λ id. id.0 < length table.new.terms) }
    ensures kept { length table.old.terms ≤ length table.new.terms }
{
    let tag = table.tag()?;
    let id = table.add(Term::Structure(tag))?;
    table.complete(tag, members)?;
    Ok(id)
}

// A new union of these members.
fn new_union(table: &mut TypeTable, members: Vec<MemberTerm>) -> Result<TypeId, OutOfMemory>
    requires { ArePlain table.old members.items }
    ensures id { IfOk result (λ id. id.0 < length table.new.terms) }
    ensures kept { length table.old.terms ≤ length table.new.terms }
{
    let tag = table.tag()?;
    let id = table.add(Term::Union(tag))?;
    table.complete(tag, members)?;
    Ok(id)
}

// One item more.
fn push_to<T: Drop>(list: &mut Vec<T>, item: T) -> Result<(), OutOfMemory> {
    match list.push(item) {
        Ok(()) => Ok(()),
        Err(_) => Err(OutOfMemory),
    }
}

// A member; no name is none.
fn member(alloc: Global, name: &str, ty: TypeId) -> Result<MemberTerm, OutOfMemory> {
    let name = if name.is_empty() {
        None
    } else {
        Some(Name::from_text(String::from_str(alloc, name)?))
    };
    Ok(MemberTerm {
        name,
        ty,
        bits: None,
    })
}

// The type with that number in a list.
fn numbered(ids: &[TypeId], number: usize) -> Result<TypeId, OutOfMemory> {
    match ids.get(number) {
        Some(id) => Ok(*id),
        None => Err(OutOfMemory),
    }
}

// What stands for a name: a dash for the empty one.
fn name_of<'a>(word: &'a str) -> &'a str {
    if word == "-" { "" } else { word }
}

// The number of a word, and where it is none one that nothing has.
fn count(word: &str) -> usize {
    word.parse().unwrap_or(usize::MAX)
}

// The members of the structure or union of a line, of types of a list.
fn member_list(alloc: Global, ids: &[TypeId], line: &str) -> Result<Vec<MemberTerm>, OutOfMemory> {
    let mut members = Vec::new(alloc);
    let mut name = "";
    for (at, word) in line.split(' ').skip(2).enumerate() {
        if at % 2 == 0 {
            name = name_of(word);
        } else {
            let ty = numbered(ids, count(word))?;
            push_to(&mut members, member(alloc, name, ty)?)?;
        }
    }
    Ok(members)
}

// What the node of a line is.
fn kind_of(alloc: Global, line: &str) -> Result<NodeKind, OutOfMemory> {
    Ok(match word(line, 1) {
        "text" => {
            let bytes = Vec::from_slice(alloc, word(line, 2).as_bytes())?;
            NodeKind::Text(HeldList::of(alloc, bytes)?)
        }
        "function" => NodeKind::FunctionName(number(line, 2)),
        "literal" => NodeKind::Literal(number(line, 2)),
        "number" => NodeKind::Number(Number::of(i128::from(number(line, 2)))),
        "decay" => NodeKind::Decay,
        "call" => NodeKind::CallNode,
        _ => NodeKind::Convert,
    })
}

// The linkage that a word tells.
fn linkage_of(word: &str) -> Linkage {
    match word {
        "external" => Linkage::External,
        "internal" => Linkage::Internal,
        _ => Linkage::Local,
    }
}

// The storage that a word tells.
fn storage_of(word: &str) -> Storage {
    match word {
        "declared" => Storage::Declared,
        "body" => Storage::FunctionBody,
        "static" => Storage::Static,
        "parameter" => Storage::Parameter,
        _ => Storage::Automatic,
    }
}

// The place in the first unit that a line tells from a word on.
fn place_at(line: &str, at: usize) -> Place {
    Place {
        unit: 0,
        line: number(line, at),
        column: number(line, at.saturating_add(1)),
    }
}

impl Draft {
    fn new(alloc: Global) -> Draft {
        Draft {
            alloc,
            ids: Vec::new(alloc),
            program: Program {
                names: Vec::new(alloc),
                types: TypeTable::new(alloc),
                nodes: Vec::new(alloc),
                entities: Vec::new(alloc),
                entries: Vec::new(alloc),
            },
        }
    }

    // The type `char`, or `int`.
    fn integer(&mut self, character: bool) -> Result<TypeId, OutOfMemory> {
        if character {
            self.program.types.add(Term::Integer {
                size: 1,
                rank: 1,
                signed: true,
            })
        } else {
            self.program.types.add(Term::Integer {
                size: 4,
                rank: 4,
                signed: true,
            })
        }
    }

    // A pointer to a type.
    fn pointer(&mut self, to: TypeId) -> Result<TypeId, OutOfMemory> {
        if to.0 < self.program.types.type_count() {
            self.program.types.add(Term::Pointer(to))
        } else {
            Err(OutOfMemory)
        }
    }

    // An array of so many.
    fn array(&mut self, of: TypeId, length: u64) -> Result<TypeId, OutOfMemory> {
        if of.0 < self.program.types.type_count() {
            self.program.types.add(Term::Array {
                of,
                length: Some(length),
            })
        } else {
            Err(OutOfMemory)
        }
    }

    // A function type with one parameter, or with none where that is its result's type.
    fn function(&mut self, given: TypeId, parameter: TypeId) -> Result<TypeId, OutOfMemory> {
        if given.0 >= self.program.types.type_count()
            || parameter.0 >= self.program.types.type_count()
        {
            return Err(OutOfMemory);
        }
        if given == parameter {
            return self.program.types.add(Term::Function {
                result: given,
                parameters: TypeList::from_items(Vec::new(self.alloc)),
                form: Form::Fixed,
            });
        }
        let parameters = TypeList::from_items(Vec::from_slice(self.alloc, &[parameter])?);
        self.program.types.add(Term::Function {
            result: given,
            parameters,
            form: Form::Fixed,
        })
    }

    // A structure or union.
    fn members(&mut self, union: bool, members: Vec<MemberTerm>) -> Result<TypeId, OutOfMemory> {
        if !are_plain(&self.program.types, members.as_slice()) {
            return Err(OutOfMemory);
        }
        if union {
            new_union(&mut self.program.types, members)
        } else {
            new_structure(&mut self.program.types, members)
        }
    }

    // The entity of a line.
    fn entity(&mut self, line: &str) -> Result<(), OutOfMemory> {
        let entity = Entity {
            name: Text::copy_of(self.alloc, name_of(word(line, 1)))?,
            unit: 0,
            place: place_at(line, 2),
            ty: numbered(self.ids.as_slice(), count(word(line, 4)))?,
            linkage: linkage_of(word(line, 5)),
            storage: storage_of(word(line, 6)),
            owner: word(line, 7).parse().ok(),
            body: None,
            used: None,
        };
        push_to(&mut self.program.entities, entity)
    }

    // The node of a line.
    fn node(&mut self, line: &str) -> Result<(), OutOfMemory> {
        let mut children = Vec::new(self.alloc);
        for child in line.split(' ').skip(6) {
            push_to(&mut children, child.parse().unwrap_or(u32::MAX))?;
        }
        let node = Node {
            kind: kind_of(self.alloc, line)?,
            place: place_at(line, 3),
            ty: numbered(self.ids.as_slice(), count(word(line, 5)))?,
            children: Children::of(self.alloc, children)?,
        };
        push_to(&mut self.program.nodes, node)
    }

    // The type of a line, over the types of the lines before it.
    fn made(&mut self, line: &str) -> Result<TypeId, OutOfMemory> {
        let first = numbered(self.ids.as_slice(), count(word(line, 2)));
        match word(line, 1) {
            "char" => self.integer(true),
            "int" => self.integer(false),
            "pointer" => self.pointer(first?),
            "array" => self.array(first?, u64::from(number(line, 3))),
            "function" => {
                let parameter = numbered(self.ids.as_slice(), count(word(line, 3)))?;
                self.function(first?, parameter)
            }
            sort => {
                let list = member_list(self.alloc, self.ids.as_slice(), line)?;
                self.members(sort == "union", list)
            }
        }
    }

    // What a line tells of the program.
    fn read(&mut self, line: &str) -> Result<(), OutOfMemory> {
        match word(line, 0) {
            "unit" => {
                let name = Text::copy_of(self.alloc, word(line, 1))?;
                push_to(&mut self.program.names, name)
            }
            "type" => {
                let id = self.made(line)?;
                push_to(&mut self.ids, id)
            }
            "entity" => self.entity(line),
            "node" => self.node(line),
            "entry" => push_to(&mut self.program.entries, number(line, 1)),
            _ => Ok(()),
        }
    }
}

// The program of a text, with its types.
fn built(alloc: Global, text: &str) -> Result<Draft, OutOfMemory> {
    let mut draft = Draft::new(alloc);
    for line in text.split('\n') {
        draft.read(line)?;
    }
    Ok(draft)
}

// Whether a location is the one of a line, and is found by its name.
fn is_wanted(space: &Space, l: u32, line: &str) -> bool {
    if l >= space.count() {
        return false;
    }
    let name = word(line, 1);
    space.name(l) == name
        && space.node_type(l) == number(line, 2)
        && space.collapsed(l) == (word(line, 3) == "collapsed")
        && space.find(name) == Some(l)
}

// The object that a line tells.
fn key_of(line: &str) -> ObjectKey {
    let number = number(line, 2);
    match word(line, 1) {
        "call" => ObjectKey::Call(number),
        "entity" => ObjectKey::Entity(number),
        "text" => ObjectKey::Text(number),
        "library" => ObjectKey::Library(number),
        "function" => ObjectKey::Function(number),
        "star" => ObjectKey::Star(number),
        _ => ObjectKey::Outside,
    }
}

// Whether the path of a line leads to the line's location, or to none.
fn leads(alloc: Global, space: &Space, types: &TypeTable, line: &str) -> Result<bool, OutOfMemory> {
    let mut path = Vec::new(alloc);
    for step in line.split(' ').skip(4) {
        let step = match step.strip_prefix('.') {
            Some(member) => PathStep::Member(member.parse().unwrap_or(u32::MAX)),
            None => PathStep::Index(step.parse().unwrap_or(u64::MAX)),
        };
        push_to(&mut path, step)?;
    }
    let found = space.spot(types, key_of(line), path.as_slice());
    Ok(found == word(line, 3).parse::<u32>().ok())
}

// Whether what a line wants of a program holds, where so many locations came before.
fn holds(
    alloc: Global,
    space: &Space,
    types: &TypeTable,
    line: &str,
    before: u32,
) -> Result<bool, OutOfMemory> {
    match word(line, 0) {
        "location" => Ok(is_wanted(space, before, line)),
        "lacking" => Ok(space.find(word(line, 1)).is_none()),
        "first" => Ok(space.first(key_of(line)) == word(line, 3).parse::<u32>().ok()),
        "spot" => leads(alloc, space, types, line),
        "unit" | "#" | "type" | "entity" | "node" | "entry" => Ok(true),
        _ => Ok(false),
    }
}

// The first line that doesn't hold of a text's locations; `none` where there are more of them than lines.
fn first_wrong<'a>(
    alloc: Global,
    space: &Space,
    types: &TypeTable,
    text: &'a str,
) -> Result<Option<&'a str>, OutOfMemory> {
    let mut locations = 0u32;
    for line in text.split('\n') {
        if !holds(alloc, space, types, line, locations)? {
            return Ok(Some(line));
        }
        if word(line, 0) == "location" {
            locations = locations.saturating_add(1);
        }
    }
    Ok(if locations == space.count() {
        None
    } else {
        Some("none")
    })
}

// The same of a text.
fn first_wrong_of<'a>(alloc: Global, text: &'a str) -> Result<Option<&'a str>, Fail> {
    let draft = built(alloc, text)?;
    let space = objects(alloc, &draft.program)?;
    Ok(first_wrong(alloc, &space, &draft.program.types, text)?)
}

#[test]
fn locations_of_programs(rt: HostRuntime) -> Result<(), Fail> {
    for text in PROGRAMS.split("\n\n") {
        let wrong = first_wrong_of(rt.alloc(), text)?;
        assert!(rt; wrong.is_none(), "{wrong:?}");
    }
    Ok(())
}

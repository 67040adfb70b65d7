// A unit and a program built by hand, and with one fault each: `int x; int f(void) { while (x) { break; } return x; }`.

use crate::fields::push_to;
use c_types::table::TypeTable;
use c_types::term::{Form, OutOfMemory, Term, TypeId, TypeList};
use core_tree::held::{Children, HeldList, HeldText};
use core_tree::{Entity, Linkage, Node, NodeKind, Program, Storage, Unit};
use core_valid::{valid_program, valid_unit};
use pta_base::{Place, Text};
use std::alloc::Global;
use std::test::Fail;

/// What is wrong with the unit.
#[derive(Clone, Copy)]
enum Fault {
    Nothing,
    TypeOfChild,
    TwiceInOneList,
    TwiceInTwoLists,
    BreakOutsideLoop,
    ReturnOfOtherType,
    UseNotTold,
    UseToldLate,
    BodyIsChild,
    BodyOfObject,
    GotoWithoutLabel,
    NodeOutOfRange,
    ParentFirst,
    OwnerIsObject,
    LocalWithoutOwner,
    KeyWithoutTag,
    NoListVoid,
}

const VOID: u32 = 0;

const INT: u32 = 1;

const LONG: u32 = 2;

const FUNCTION: u32 = 3;

const OPEN_FUNCTION: u32 = 4;

// Adds the types of the unit in order: void, int, long, and the function's.
fn add_types(alloc: Global, types: &mut TypeTable, fault: Fault) -> Result<(), OutOfMemory> {
    types.add(Term::Void)?;
    let int = types.add(Term::Integer {
        size: 4,
        rank: 4,
        signed: true,
    })?;
    types.add(Term::Integer {
        size: 8,
        rank: 5,
        signed: true,
    })?;
    add_function(alloc, types, int, form_of(fault))
}

// The form of the function's list of parameters.
fn form_of(fault: Fault) -> Form {
    match fault {
        Fault::NoListVoid => Form::Unspecified,
        _ => Form::Fixed,
    }
}

// A function type without parameters.
fn add_function(
    alloc: Global,
    types: &mut TypeTable,
    given: TypeId,
    form: Form,
) -> Result<(), OutOfMemory> {
    if given.0 < types.type_count() {
        types.add(Term::Function {
            result: given,
            parameters: TypeList::from_items(Vec::new(alloc)),
            form,
        })?;
    }
    Ok(())
}

// One node more, at a column of the first line.
fn push_node(
    alloc: Global,
    nodes: &mut Vec<Node>,
    column: u32,
    kind: NodeKind,
    ty: u32,
    children: &[u32],
) -> Result<(), OutOfMemory> {
    let node = Node {
        kind,
        place: place_at(column),
        ty: TypeId(ty),
        children: Children::of(alloc, Vec::from_slice(alloc, children)?)?,
    };
    push_to(nodes, node)
}

// A place in the first line.
fn place_at(column: u32) -> Place {
    Place {
        unit: 0,
        line: 1,
        column,
    }
}

// The type of the first operand.
fn fetched_type(fault: Fault) -> u32 {
    match fault {
        Fault::TypeOfChild => LONG,
        _ => INT,
    }
}

// The statement in the loop.
fn jump(alloc: Global, fault: Fault) -> Result<NodeKind, OutOfMemory> {
    match fault {
        Fault::GotoWithoutLabel => {
            let label = Text::copy_of(alloc, "out")?;
            Ok(NodeKind::Goto(HeldText::of(alloc, label)?))
        }
        _ => Ok(NodeKind::Break),
    }
}

// A block without objects.
fn block(alloc: Global) -> Result<NodeKind, OutOfMemory> {
    Ok(NodeKind::Block(HeldList::of(alloc, Vec::new(alloc))?))
}

// The loop.
fn repeats(fault: Fault) -> NodeKind {
    match fault {
        Fault::BreakOutsideLoop => NodeKind::If,
        _ => NodeKind::While,
    }
}

// The loop, and what is returned.
fn first_nodes(alloc: Global, nodes: &mut Vec<Node>, fault: Fault) -> Result<(), OutOfMemory> {
    push_node(alloc, nodes, 30, NodeKind::Named(0), INT, &[])?;
    push_node(alloc, nodes, 30, NodeKind::Fetch, fetched_type(fault), &[0])?;
    push_node(alloc, nodes, 35, jump(alloc, fault)?, VOID, &[])?;
    push_node(alloc, nodes, 33, block(alloc)?, VOID, &[2])?;
    push_node(alloc, nodes, 23, repeats(fault), VOID, &[1, 3])?;
    push_node(alloc, nodes, 50, NodeKind::Named(0), INT, &[])?;
    push_node(alloc, nodes, 50, NodeKind::Fetch, INT, &[5])
}

// The Return and the body of the function.
fn last_nodes(alloc: Global, nodes: &mut Vec<Node>, fault: Fault) -> Result<(), OutOfMemory> {
    if matches!(fault, Fault::ReturnOfOtherType) {
        return other_return(alloc, nodes);
    }
    let children: &[u32] = match fault {
        Fault::TwiceInOneList => &[4, 7, 4],
        Fault::TwiceInTwoLists => &[4, 7, 3],
        Fault::NodeOutOfRange => &[4, 7, 900],
        Fault::ParentFirst => &[4, 8],
        _ => &[4, 7],
    };
    push_node(alloc, nodes, 43, NodeKind::Return, VOID, &[6])?;
    push_node(alloc, nodes, 21, block(alloc)?, VOID, children)
}

// A Return of a long, and the body of the function.
fn other_return(alloc: Global, nodes: &mut Vec<Node>) -> Result<(), OutOfMemory> {
    push_node(alloc, nodes, 43, NodeKind::Convert, LONG, &[6])?;
    push_node(alloc, nodes, 43, NodeKind::Return, VOID, &[7])?;
    push_node(alloc, nodes, 21, block(alloc)?, VOID, &[4, 8])
}

// The place of the first use of `x`.
fn used_of(fault: Fault) -> Option<Place> {
    match fault {
        Fault::UseNotTold => None,
        Fault::UseToldLate => Some(place_at(50)),
        _ => Some(place_at(30)),
    }
}

// The storage of `x`.
fn storage_of(fault: Fault) -> Storage {
    match fault {
        Fault::LocalWithoutOwner => Storage::Automatic,
        _ => Storage::Static,
    }
}

// The owner of `x`.
fn owner_of(fault: Fault) -> Option<u32> {
    match fault {
        Fault::OwnerIsObject => Some(0),
        _ => None,
    }
}

// The initialiser of `x`.
fn initialiser_of(fault: Fault) -> Option<u32> {
    match fault {
        Fault::BodyOfObject => Some(3),
        _ => None,
    }
}

// The body of `f`.
fn body_of(fault: Fault) -> u32 {
    match fault {
        Fault::BodyIsChild => 3,
        Fault::ReturnOfOtherType => 9,
        _ => 8,
    }
}

// `x`.
fn object(alloc: Global, fault: Fault) -> Result<Entity, OutOfMemory> {
    Ok(Entity {
        name: Text::copy_of(alloc, "x")?,
        unit: 0,
        place: place_at(5),
        ty: TypeId(INT),
        linkage: Linkage::External,
        storage: storage_of(fault),
        owner: owner_of(fault),
        body: initialiser_of(fault),
        used: used_of(fault),
    })
}

// `f`.
fn function(alloc: Global, fault: Fault) -> Result<Entity, OutOfMemory> {
    Ok(Entity {
        name: Text::copy_of(alloc, "f")?,
        unit: 0,
        place: place_at(12),
        ty: TypeId(FUNCTION),
        linkage: Linkage::External,
        storage: Storage::FunctionBody,
        owner: None,
        body: Some(body_of(fault)),
        used: None,
    })
}

// Adds the entities of the unit: `x` and `f`.
fn add_entities(
    alloc: Global,
    entities: &mut Vec<Entity>,
    fault: Fault,
) -> Result<(), OutOfMemory> {
    push_to(entities, object(alloc, fault)?)?;
    push_to(entities, function(alloc, fault)?)
}

// Adds the keys of the tags, of which there are none.
fn add_tags(alloc: Global, tags: &mut Vec<Option<Text>>, fault: Fault) -> Result<(), OutOfMemory> {
    if matches!(fault, Fault::KeyWithoutTag) {
        push_to(tags, Some(Text::copy_of(alloc, "struct s")?))?;
    }
    Ok(())
}

// Adds all parts of the unit.
fn fill(alloc: Global, unit: &mut Unit, fault: Fault) -> Result<(), OutOfMemory> {
    add_types(alloc, &mut unit.types, fault)?;
    add_tags(alloc, &mut unit.tags, fault)?;
    first_nodes(alloc, &mut unit.nodes, fault)?;
    last_nodes(alloc, &mut unit.nodes, fault)?;
    add_entities(alloc, &mut unit.entities, fault)
}

// A unit without parts.
fn empty_unit(alloc: Global) -> Result<Unit, OutOfMemory> {
    let name = Text::copy_of(alloc, "a.i")?;
    Ok(Unit {
        name,
        types: TypeTable::new(alloc),
        tags: Vec::new(alloc),
        nodes: Vec::new(alloc),
        entities: Vec::new(alloc),
    })
}

// Adds all parts of the program of that unit alone, with so many names.
fn fill_program(
    alloc: Global,
    program: &mut Program,
    fault: Fault,
    names: u32,
) -> Result<(), OutOfMemory> {
    for _ in 0..names {
        push_to(&mut program.names, Text::copy_of(alloc, "a.i")?)?;
    }
    add_types(alloc, &mut program.types, fault)?;
    first_nodes(alloc, &mut program.nodes, fault)?;
    last_nodes(alloc, &mut program.nodes, fault)?;
    add_entities(alloc, &mut program.entities, fault)
}

// The program of that unit alone, with so many names.
fn program_with(alloc: Global, fault: Fault, names: u32) -> Result<Program, OutOfMemory> {
    let mut program = Program {
        names: Vec::new(alloc),
        types: TypeTable::new(alloc),
        nodes: Vec::new(alloc),
        entities: Vec::new(alloc),
        entries: Vec::new(alloc),
    };
    fill_program(alloc, &mut program, fault, names)?;
    Ok(program)
}

// Whether the unit with a fault is valid.
fn is_valid(alloc: Global, fault: Fault) -> Result<bool, Fail> {
    let mut unit = empty_unit(alloc)?;
    fill(alloc, &mut unit, fault)?;
    Ok(valid_unit(&unit))
}

// Whether the program with a fault and so many names is valid.
fn is_valid_program(alloc: Global, fault: Fault, names: u32) -> Result<bool, Fail> {
    let program = program_with(alloc, fault, names)?;
    Ok(valid_program(&program))
}

#[test]
fn one_unit(rt: HostRuntime) -> Result<(), Fail> {
    assert!(rt; is_valid(rt.alloc(), Fault::Nothing)?);
    assert!(rt; is_valid_program(rt.alloc(), Fault::Nothing, 1)?);
    Ok(())
}

static FAULTS: [(&str, Fault); 15] = [
    ("type of child", Fault::TypeOfChild),
    ("twice in one list", Fault::TwiceInOneList),
    ("twice in two lists", Fault::TwiceInTwoLists),
    ("break outside loop", Fault::BreakOutsideLoop),
    ("return of other type", Fault::ReturnOfOtherType),
    ("use not told", Fault::UseNotTold),
    ("use told late", Fault::UseToldLate),
    ("body is child", Fault::BodyIsChild),
    ("body of object", Fault::BodyOfObject),
    ("goto without label", Fault::GotoWithoutLabel),
    ("node out of range", Fault::NodeOutOfRange),
    ("parent first", Fault::ParentFirst),
    ("owner is object", Fault::OwnerIsObject),
    ("local without owner", Fault::LocalWithoutOwner),
    ("key without tag", Fault::KeyWithoutTag),
];

#[test]
fn one_fault_each(rt: HostRuntime) -> Result<(), Fail> {
    for (name, fault) in &FAULTS {
        assert!(rt; !is_valid(rt.alloc(), *fault)?, "{name}");
    }
    Ok(())
}

// A declaration `int f();`, or `int f(void);`, at a column.
fn declaration(
    alloc: Global,
    column: u32,
    ty: u32,
    used: Option<Place>,
) -> Result<Entity, OutOfMemory> {
    Ok(Entity {
        name: Text::copy_of(alloc, "f")?,
        unit: 0,
        place: place_at(column),
        ty: TypeId(ty),
        linkage: Linkage::External,
        storage: Storage::Declared,
        owner: None,
        body: None,
        used,
    })
}

// Adds what the unit `int f();` has, with `int f(void);` behind it or not, in which a use of the first one has the type `int (void)`.
fn fill_with_use(alloc: Global, unit: &mut Unit, second: bool) -> Result<(), OutOfMemory> {
    add_types(alloc, &mut unit.types, Fault::Nothing)?;
    add_function(alloc, &mut unit.types, TypeId(INT), Form::Unspecified)?;
    let name = NodeKind::FunctionName(0);
    push_node(alloc, &mut unit.nodes, 30, name, FUNCTION, &[])?;
    let first = declaration(alloc, 5, OPEN_FUNCTION, Some(place_at(30)))?;
    push_to(&mut unit.entities, first)?;
    if second {
        push_to(&mut unit.entities, declaration(alloc, 15, FUNCTION, None)?)?;
    }
    Ok(())
}

// Whether that unit is valid.
fn is_valid_with_use(alloc: Global, second: bool) -> Result<bool, Fail> {
    let mut unit = empty_unit(alloc)?;
    fill_with_use(alloc, &mut unit, second)?;
    Ok(valid_unit(&unit))
}

#[test]
fn uses_of_declarations(rt: HostRuntime) -> Result<(), Fail> {
    assert!(rt; !is_valid_with_use(rt.alloc(), false)?);
    assert!(rt; is_valid_with_use(rt.alloc(), true)?);
    Ok(())
}

#[test]
fn programs(rt: HostRuntime) -> Result<(), Fail> {
    assert!(rt; is_valid(rt.alloc(), Fault::NoListVoid)?);
    assert!(rt; !is_valid_program(rt.alloc(), Fault::NoListVoid, 1)?);
    assert!(rt; !is_valid_program(rt.alloc(), Fault::Nothing, 0)?);
    Ok(())
}

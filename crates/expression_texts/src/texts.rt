// Expressions from the texts of their units to their core nodes, through the parser.

ghost use Rattle.std.specs.Prelude.{◌<◌, IfOk, length};
ghost use Rattle.c_lexer.specs.Cut.{IsTokens};
ghost use Rattle.c_parser.specs.c_units.Units.{IsUnit};
ghost use Rattle.c_scope.specs.Resolves.{IsBound};
ghost use Rattle.core_nodes.specs.Standing.{IsReady};

use c_check::{CheckFault, Known, Meaning, check_expression, is_told};
use c_grammar::Tree;
use c_lexer::Tokens;
use c_lexer::lexer::tokens;
use c_parser::c_units::parse_unit;
use c_scope::{Bound, resolve};
use c_types::table::TypeTable;
use c_types::term::{Form, Term, TypeId, TypeList};
use core_tree::node::{Entity, Linkage, Node, NodeKind, Op, Storage, Unit};
use parsed_tree_laws::sense_laws::parsed_laws::laws::children_first;
use pta_base::{Kind, Place, Text};
use std::alloc::Global;
use std::test::Fail;

// The number of the text's unit.
const UNIT: u32 = 3;

// The productions of a statement and of an initialiser.
const STATEMENT: u32 = 30;

const INITIALISER: u32 = 25;

/// The number of the entity of the function that expressions stand in.
pub const WITHIN: u32 = 10;

// What stands before an expression, which is on the fifth line. Of o, q, x and y, and of the tags r, n and l nothing is known.
const OBJECTS: &str = "int a,b,*p;void*v;int e[1];int f(int*,...);typedef int*t;enum{c=2};int g();";

const OTHERS: &str =
    "struct s{char x;int*y;}z;int h();int h(int);extern char k[];extern char k[3];int q;struct r{int i;};";

const PARTS: &str = "struct n{int i;char m[2];}y;struct l{int i;int j[];}*x;float o;";

const BODY: &str = "void w(void){";

/// A place in the expression's line.
pub fn place_at(column: u32) -> Place {
    Place {
        unit: UNIT,
        line: 5,
        column,
    }
}

// The names of the objects and functions, in the order of their entities.
const NAMES: &str = "a b p v e f g z h k w";

// The types of those names.
fn object_types(alloc: Global, types: &mut TypeTable) -> Result<[TypeId; 11], Fail> {
    let int = types.add(Term::Integer {
        size: 4,
        rank: 4,
        signed: true,
    })?;
    let pointer = types.add(Term::Pointer(int))?;
    let void = types.add(Term::Void)?;
    let any = types.add(Term::Pointer(void))?;
    let array = types.add(Term::Array {
        of: int,
        length: Some(1),
    })?;
    let function = types.add(Term::Function {
        result: int,
        parameters: TypeList::from_items(Vec::from_slice(alloc, &[pointer])?),
        form: Form::Variadic,
    })?;
    let plain = types.add(Term::Function {
        result: int,
        parameters: TypeList::from_items(Vec::new(alloc)),
        form: Form::Unspecified,
    })?;
    let nothing = types.add(Term::Function {
        result: void,
        parameters: TypeList::from_items(Vec::new(alloc)),
        form: Form::Fixed,
    })?;
    let tag = types.tag()?;
    let structure = types.add(Term::Structure(tag))?;
    Ok([
        int, int, pointer, any, array, function, plain, structure, plain, array, nothing,
    ])
}

// An object or a function with external linkage.
fn object(alloc: Global, name: &str, ty: TypeId) -> Result<Entity, Fail> {
    Ok(Entity {
        name: Text::copy_of(alloc, name)?,
        unit: UNIT,
        place: place_at(1),
        ty,
        linkage: Linkage::External,
        storage: Storage::Static,
        owner: None,
        body: None,
        used: None,
    })
}

// The objects and functions with these types.
fn objects(alloc: Global, types: &[TypeId; 11]) -> Result<Vec<Entity>, Fail> {
    let mut entities = Vec::new(alloc);
    for (name, ty) in NAMES.split(' ').zip(types) {
        entities.push(object(alloc, name, *ty)?)?;
    }
    Ok(entities)
}

// The unit of the objects a and b of type int, p of type int *, v of type void * and e of type int[1], of the functions
// int f(int *, ...) and int g(), of an object of a structure, of the function int h(int), an array k, and the function void w(void).
fn unit_of_objects(alloc: Global) -> Result<Unit, Fail>
    ensures ready { IfOk result (λ unit. IsReady unit) }
{
    let name = Text::copy_of(alloc, "sum.c")?;
    let mut types = TypeTable::new(alloc);
    let ids = object_types(alloc, &mut types)?;
    let entities = objects(alloc, &ids)?;
    Ok(Unit {
        name,
        types,
        tags: Vec::new(alloc),
        nodes: Vec::new(alloc),
        entities,
    })
}

// What is known of a name, or of a tag.
fn known_of(name: &[u8]) -> Option<Meaning> {
    match name {
        b"a" => Some(Meaning::Entity(0)),
        b"b" => Some(Meaning::Entity(1)),
        b"p" => Some(Meaning::Entity(2)),
        b"v" => Some(Meaning::Entity(3)),
        b"e" => Some(Meaning::Entity(4)),
        b"f" => Some(Meaning::Entity(5)),
        b"g" => Some(Meaning::Entity(6)),
        b"z" => Some(Meaning::Entity(7)),
        b"h" => Some(Meaning::Entity(8)),
        b"k" => Some(Meaning::Entity(9)),
        b"w" => Some(Meaning::Entity(WITHIN)),
        b"c" => Some(Meaning::Value(2)),
        b"s" => Some(Meaning::Tag(0)),
        _ => None,
    }
}

// The first token of a node.
fn token_text<'a>(found: &Tokens<'a>, token: u32) -> &'a [u8] {
    match found.list.get(token as usize) {
        Some(there) => {
            let start = (there.start as usize).min(found.text.len());
            let end = (there.end as usize).clamp(start, found.text.len());
            &found.text[start..end]
        }
        None => &[],
    }
}

// The text of a node's first token.
fn node_text<'a>(found: &Tokens<'a>, tree: &Tree, node: u32) -> &'a [u8] {
    match tree.nodes.get(node as usize) {
        Some(there) => token_text(found, there.token),
        None => &[],
    }
}

// What is known of the declarations of a unit.
fn known_names(
    alloc: Global,
    found: &Tokens<'_>,
    tree: &Tree,
    bound: &Bound,
    owner: Option<u32>,
) -> Result<Known, Fail> {
    let mut list = Vec::new(alloc);
    for d in bound.names.as_slice() {
        if let Some(meaning) = known_of(node_text(found, tree, d.node)) {
            list.push((d.node, meaning))?;
        }
    }
    for d in bound.tags.as_slice() {
        if let Some(meaning) = known_of(node_text(found, tree, d.node)) {
            list.push((d.node, meaning))?;
        }
    }
    Ok(Known { owner, list })
}

// The first child of the last node of a production.
fn last_under(tree: &Tree, production: u32) -> Option<u32> {
    let mut last = None;
    for node in tree.nodes.as_slice() {
        if node.production == production {
            last = node.children.as_slice().first().copied();
        }
    }
    last
}

// The column of a node's first token.
fn column_of(found: &Tokens<'_>, tree: &Tree, node: u32) -> u32 {
    match tree.nodes.get(node as usize) {
        Some(there) => match found.list.get(there.token as usize) {
            Some(token) => token.column,
            None => 0,
        },
        None => 0,
    }
}

/// What a refusal says: its kind, and the column of the first token of the node that it names. Where the expression names what isn't told,
/// it isn't checked, and this is `NotBuilt` at the expression.
pub type Refusal = (Kind, u32);

// What a fault of a text says.
fn refusal_of(found: &Tokens<'_>, tree: &Tree, fault: CheckFault) -> Result<Refusal, Fail> {
    match fault {
        CheckFault::BadOperand(at) => Ok((Kind::Operand, column_of(found, tree, at))),
        CheckFault::Unsupported(kind, at) => Ok((kind, column_of(found, tree, at))),
        CheckFault::OutOfMemory => Err(Fail::new("out of memory")),
    }
}

// Checks the expression at a node, and tells what refuses it.
fn checked(
    alloc: Global,
    found: &Tokens<'_>,
    tree: &Tree,
    bound: &Bound,
    node: u32,
    known: &mut Known,
    unit: &mut Unit,
) -> Result<Option<Refusal>, Fail>
    requires tokens { IsTokens found.now.text.now found.now.list.items }
    requires read { IsUnit found.now tree.now.unit tree.now }
    requires bound { IsBound found.now tree.now bound.now }
    requires node { node < length tree.now.nodes.items }
    requires ready { IsReady unit.old }
{
    children_first();
    let Ok(told) = is_told(alloc, found, tree, bound, node, known, unit) else {
        return Err(Fail::new("out of memory"));
    };
    if !told {
        return Ok(Some((Kind::NotBuilt, column_of(found, tree, node))));
    }
    match check_expression(alloc, found, tree, bound, node, known, unit) {
        Ok(_) => Ok(None),
        Err(fault) => Ok(Some(refusal_of(found, tree, fault)?)),
    }
}

// The unit with the core nodes of the expression at a node, what is known afterwards, and a refusal where there is one.
fn answer_at(
    alloc: Global,
    found: &Tokens<'_>,
    tree: &Tree,
    bound: &Bound,
    node: u32,
    owner: Option<u32>,
) -> Result<(Unit, Known, Option<Refusal>), Fail>
    requires tokens { IsTokens found.now.text.now found.now.list.items }
    requires read { IsUnit found.now tree.now.unit tree.now }
    requires bound { IsBound found.now tree.now bound.now }
    requires node { node < length tree.now.nodes.items }
{
    let mut known = known_names(alloc, found, tree, bound, owner)?;
    let mut unit = unit_of_objects(alloc)?;
    let refusal = checked(alloc, found, tree, bound, node, &mut known, &mut unit)?;
    Ok((unit, known, refusal))
}

// The same of the expression under the last node of a production in a text.
fn answer_under(
    alloc: Global,
    whole: &str,
    production: u32,
    owner: Option<u32>,
) -> Result<(Unit, Known, Option<Refusal>), Fail> {
    let found = tokens(alloc, whole.as_bytes())?;
    if found.list.len() > u32::MAX as usize {
        return Err(Fail::new("too long"));
    }
    let Ok(tree) = parse_unit(alloc, &found, UNIT) else {
        return Err(Fail::new("no unit"));
    };
    let Ok(bound) = resolve(alloc, &found, &tree) else {
        return Err(Fail::new("no names"));
    };
    match last_under(&tree, production) {
        Some(node) if (node as usize) < tree.nodes.len() => {
            answer_at(alloc, &found, &tree, &bound, node, owner)
        }
        _ => Err(Fail::new("no expression")),
    }
}

/// The unit with the core nodes of an expression that stands in a function, what is known afterwards, and a refusal where there is one.
pub fn answer(alloc: Global, text: &str) -> Result<(Unit, Known, Option<Refusal>), Fail> {
    let whole = format!(in alloc;
        "{}\n{}\n{}\n{}\n{};}}\n",
        OBJECTS, OTHERS, PARTS, BODY, text
    )?;
    answer_under(alloc, whole.as_str(), STATEMENT, Some(WITHIN))
}

/// The same of the initialiser of the last object that a text declares, outside of functions.
pub fn answer_outside(alloc: Global, text: &str) -> Result<(Unit, Known, Option<Refusal>), Fail> {
    let whole = format!(in alloc; "{}\n{}\n{}\n\n{}\n", OBJECTS, OTHERS, PARTS, text)?;
    answer_under(alloc, whole.as_str(), INITIALISER, None)
}

// A letter for an operator.
fn letter_of_operator(op: Op) -> u8 {
    match op {
        Op::Plus => b'+',
        Op::Multiply => b'x',
        Op::Minus => b'-',
        Op::Less => b'<',
        Op::Equal => b'=',
        Op::ShiftLeft => b'L',
        Op::Or => b'|',
        Op::Complement => b'~',
        Op::Not => b'!',
        _ => b'o',
    }
}

// A letter for a kind of core node.
fn letter_of(kind: &NodeKind) -> u8 {
    match kind {
        NodeKind::Named(e) => b'a' + (*e).min(25) as u8,
        NodeKind::Number(n) => b'0' + n.get().clamp(0, 9) as u8,
        NodeKind::Text(_) => b'T',
        NodeKind::Fetch => b'F',
        NodeKind::NullValue => b'N',
        NodeKind::Convert => b'C',
        NodeKind::Decay => b'D',
        NodeKind::AddressOf => b'&',
        NodeKind::Deref => b'*',
        NodeKind::Upcast => b'S',
        NodeKind::Member(_) => b'M',
        NodeKind::MemberOfValue(_) => b'V',
        NodeKind::PointerAdd { minus: false } => b'P',
        NodeKind::PointerAdd { minus: true } => b'Q',
        NodeKind::Update { post: true, .. } => b'U',
        NodeKind::Update { post: false, .. } => b'u',
        NodeKind::Choose => b'?',
        NodeKind::Assign => b'A',
        NodeKind::FunctionName(_) => b'f',
        NodeKind::CallNode => b'(',
        NodeKind::Sequence => b',',
        NodeKind::Arith(op) => letter_of_operator(*op),
        NodeKind::Literal(_) => b'{',
        NodeKind::Initialise { .. } => b'I',
        _ => b'.',
    }
}

/// Whether numbers are those of a text, behind one another with dots between them; a dash is none.
pub fn are_numbers(numbers: &[u32], text: &str) -> bool {
    if text == "-" {
        return numbers.is_empty();
    }
    for (at, number) in text.split('.').enumerate() {
        if number.parse::<u32>().ok() != numbers.get(at).copied() {
            return false;
        }
    }
    numbers.len() == text.split('.').count()
}

// Whether a core node is what a word tells, as `+2:4.1`: a letter for its kind, its column, and its children, if it has any.
fn is_shape(node: &Node, word: &str) -> bool {
    let (head, children) = word.split_once(':').unwrap_or((word, "-"));
    let Some(column) = head.strip_prefix(char::from(letter_of(&node.kind))) else {
        return false;
    };
    match column.parse::<u32>() {
        Ok(column) => {
            node.place == place_at(column) && are_numbers(node.children.as_slice(), children)
        }
        Err(_) => false,
    }
}

/// Whether the nodes of a unit are those of a text in order, a word each: a letter for the kind, the column in the expression's line, and
/// behind a colon the numbers of the children.
pub fn has_shapes(unit: &Unit, words: &str) -> bool {
    for (at, word) in words.split(' ').enumerate() {
        match unit.nodes.get(at) {
            Some(node) if is_shape(node, word) => {}
            _ => return false,
        }
    }
    unit.nodes.len() == words.split(' ').count()
}

/// Whether the text of a row gives the core nodes behind its arrow and no others. What begins with a hash mark and a space is no row, but a
/// remark: it asks for nothing.
pub fn gives(alloc: Global, row: &str) -> Result<bool, Fail> {
    if row.starts_with("# ") {
        return Ok(true);
    }
    let (text, words) = row.split_once(" => ").unwrap_or((row, ""));
    let (unit, _known, refusal) = answer(alloc, text)?;
    Ok(refusal.is_none() && has_shapes(&unit, words))
}

/// What refuses a text.
pub fn refusal(alloc: Global, text: &str) -> Result<Option<Refusal>, Fail> {
    let (_unit, _known, refusal) = answer(alloc, text)?;
    Ok(refusal)
}

/// Whether it is that refusal.
pub fn is_refusal(found: Option<Refusal>, kind: Kind, column: u32) -> bool {
    match found {
        Some((other, place)) => other == kind && place == column,
        None => false,
    }
}

// Constants against values of C11 and of gcc 12 on x86-64, over core nodes that are made from words in postfix order.

ghost use Rattle.std.specs.Prelude.{◌≡◌, ◌<◌, ◌≢◌, ◌↔◌, ◌++◌, ◌∷◌, [], All, IfOk, OnOk, OnErr, IsTrue, length, slice_get};
ghost use Rattle.c_types.specs.Table.{type_of};
ghost use Rattle.core_tree.specs.Rows.{RowOf, Binary, Unary, Converts, int};
ghost use Rattle.core_tree.specs.Typed.{IsPromoted, IsInteger, ValueNode, sort_at, sort_in, type_at};
ghost use Rattle.c_consts.specs.Nodes.{AreRows, IsConstantKind, bare};

use crate::fields::{number, push_to, sides, word};
use c_consts::{ConstFault, constant, convert};
use c_types::table::TypeTable;
use c_types::term::{OutOfMemory, Term, TypeId};
use core_tree::held::{Children, Number};
use core_tree::node::{Node, NodeKind, Op};
use core_tree::rows::{holds, is_integer, is_value_kind};
use pta_base::Place;
use std::alloc::Global;

// An integer type that promotion leaves as it is.
fn is_promoted(types: &TypeTable, id: TypeId) -> bool
    requires { id.0 < length types.now.terms }
    ensures { IsTrue result ↔ IsPromoted (type_of types.now id.0) }
{
    match types.term(id) {
        Term::Integer { size, .. } => 4 <= *size,
        _ => false,
    }
}

// The type int.
fn is_int(types: &TypeTable, id: TypeId) -> bool
    requires { id.0 < length types.now.terms }
    ensures { IsTrue result → type_of types.now id.0 ≡ int }
{
    match types.term(id) {
        Term::Integer { size, rank, signed } => *size == 4 && *rank == 4 && *signed,
        _ => false,
    }
}

// An operator over one operand of that type.
fn unary_fits(types: &TypeTable, op: Op, a: TypeId, ty: TypeId) -> bool
    requires a { a.0 < length types.now.terms }
    requires ty { ty.0 < length types.now.terms }
    ensures { IsTrue result → Unary op (type_of types.now a.0) (type_of types.now ty.0) }
{
    match op {
        Op::Plus => is_promoted(types, a) && types.same(ty, a),
        Op::Minus => is_promoted(types, a) && types.same(ty, a),
        Op::Complement => is_promoted(types, a) && types.same(ty, a),
        _ => false,
    }
}

// Operands of one promoted type, which is the result's.
fn alike(types: &TypeTable, a: TypeId, b: TypeId, ty: TypeId) -> bool
    requires a { a.0 < length types.now.terms }
    requires b { b.0 < length types.now.terms }
    requires ty { ty.0 < length types.now.terms }
    ensures promoted { IsTrue result → IsPromoted (type_of types.now a.0) }
    ensures same { IsTrue result → type_of types.now a.0 ≡ type_of types.now b.0 }
    ensures result { IsTrue result → type_of types.now ty.0 ≡ type_of types.now a.0 }
{
    is_promoted(types, a) && types.same(a, b) && types.same(ty, a)
}

// An operator over two operands of those types.
fn binary_fits(types: &TypeTable, op: Op, a: TypeId, b: TypeId, ty: TypeId) -> bool
    requires a { a.0 < length types.now.terms }
    requires b { b.0 < length types.now.terms }
    requires ty { ty.0 < length types.now.terms }
    ensures { IsTrue result → Binary op (type_of types.now a.0) (type_of types.now b.0) (type_of types.now ty.0) }
{
    match op {
        Op::Multiply => alike(types, a, b, ty),
        Op::Divide => alike(types, a, b, ty),
        Op::Remainder => alike(types, a, b, ty),
        Op::Plus => alike(types, a, b, ty),
        Op::Minus => alike(types, a, b, ty),
        Op::And => alike(types, a, b, ty),
        Op::Xor => alike(types, a, b, ty),
        Op::Or => alike(types, a, b, ty),
        Op::ShiftLeft => is_promoted(types, b) && alike(types, a, a, ty),
        Op::ShiftRight => is_promoted(types, b) && alike(types, a, a, ty),
        Op::Less => is_int(types, ty) && alike(types, a, b, a),
        _ => false,
    }
}

// A value node.
fn is_value(nodes: &[Node], node: u32) -> bool
    requires { node < length nodes.now }
    ensures { IsTrue result → sort_in (slice_get nodes.now node) ≡ ValueNode }
{
    is_value_kind(&nodes[node as usize].kind)
}

// A value node of that type.
fn is_value_of(types: &TypeTable, nodes: &[Node], node: u32, ty: TypeId) -> bool
    requires rows { AreRows types.now nodes.now }
    requires node { node < length nodes.now }
    requires ty { ty.0 < length types.now.terms }
    ensures value { IsTrue result → sort_at (bare types.now nodes.now) node ≡ ValueNode }
    ensures ty { IsTrue result → type_at (bare types.now nodes.now) node ≡ type_of types.now ty.0 }
{
    is_value_kind(&nodes[node as usize].kind) && types.same(nodes[node as usize].ty, ty)
}

// A value node of an integer type.
fn is_number(types: &TypeTable, nodes: &[Node], node: u32) -> bool
    requires rows { AreRows types.now nodes.now }
    requires node { node < length nodes.now }
    ensures value { IsTrue result → sort_at (bare types.now nodes.now) node ≡ ValueNode }
    ensures ty { IsTrue result → IsInteger (type_at (bare types.now nodes.now) node) }
{
    is_value_kind(&nodes[node as usize].kind) && is_integer(types, nodes[node as usize].ty)
}

// The types of two nodes fit an operator.
fn types_fit(types: &TypeTable, nodes: &[Node], op: Op, a: u32, b: u32, ty: TypeId) -> bool
    requires rows { AreRows types.now nodes.now }
    requires a { a < length nodes.now }
    requires b { b < length nodes.now }
    requires ty { ty.0 < length types.now.terms }
    ensures { IsTrue result → Binary op (type_at (bare types.now nodes.now) a) (type_at (bare types.now nodes.now) b)
        (type_of types.now ty.0) }
{
    binary_fits(types, op, nodes[a as usize].ty, nodes[b as usize].ty, ty)
}

// A node in its row, where it is of a kind of which constants are made.
fn row_fits(
    types: &TypeTable,
    nodes: &[Node],
    kind: &NodeKind,
    ty: TypeId,
    children: &[u32],
) -> bool
    requires rows { AreRows types.now nodes.now }
    requires ty { ty.0 < length types.now.terms }
    requires children { All (λ c. c < length nodes.now) children.now }
    ensures { IsTrue result → IsConstantKind kind.now
        → RowOf (bare types.now nodes.now) kind.now (type_of types.now ty.0) children.now }
{
    match kind {
        NodeKind::Number(n) => children.is_empty() && holds(types, ty, n.get()),
        NodeKind::Arith(op) => match children {
            [a] => { is_value(nodes, *a) && unary_fits(types, *op, nodes[*a as usize].ty, ty) }
            [a, b] => {
                is_value(nodes, *a)
                    && is_value(nodes, *b)
                    && types_fit(types, nodes, *op, *a, *b, ty)
            }
            _ => false,
        },
        NodeKind::Choose => match children {
            [c, a, b] => {
                is_number(types, nodes, *c)
                    && is_value_of(types, nodes, *a, ty)
                    && is_value_of(types, nodes, *b, ty)
            }
            _ => false,
        },
        NodeKind::Convert => false,
        _ => true,
    }
}

// Nodes with their types.
#[derive(Drop)]
struct Sheet {
    types: TypeTable,
    int: TypeId,
    unsigned: TypeId,
    nodes: Vec<Node>,
}

// The sheet without nodes.
fn empty_sheet(alloc: Global) -> Result<Sheet, OutOfMemory>
    ensures { IfOk result (λ s. AreRows s.types s.nodes.items) }
{
    let mut types = TypeTable::new(alloc);
    let int = types.add(Term::Integer {
        size: 4,
        rank: 4,
        signed: true,
    })?;
    let unsigned = types.add(Term::Integer {
        size: 4,
        rank: 4,
        signed: false,
    })?;
    let nodes = Vec::new(alloc);
    Ok(Sheet {
        types,
        int,
        unsigned,
        nodes,
    })
}

// Whether children are nodes of the list.
fn are_nodes(nodes: &[Node], children: &[u32]) -> bool
    ensures { IsTrue result → All (λ c. c < length nodes.now) children.now }
{
    children.iter().all(|c| (*c as usize) < nodes.len())
}

// One node more, which is in its row; whether there was memory.
fn append(sheet: &mut Sheet, node: Node) -> bool
    requires rows { AreRows sheet.old.types sheet.old.nodes.items }
    requires ty { node.ty.0 < length sheet.old.types.terms }
    requires children { All (λ c. c < length sheet.old.nodes.items) node.children }
    requires row { IsConstantKind node.kind
        → RowOf (bare sheet.old.types sheet.old.nodes.items) node.kind (type_of sheet.old.types node.ty.0) node.children }
    ensures { AreRows sheet.new.types sheet.new.nodes.items }
{
    match sheet.nodes.push(node) {
        Ok(()) => true,
        Err(_) => false,
    }
}

// One node more, if it is in its row; its number, or one that no node has.
fn push(
    sheet: &mut Sheet,
    kind: NodeKind,
    ty: TypeId,
    children: Children,
) -> Result<u32, OutOfMemory>
    requires { AreRows sheet.old.types sheet.old.nodes.items }
    ensures { AreRows sheet.new.types sheet.new.nodes.items }
{
    let number = sheet.nodes.len();
    if number >= u32::MAX as usize || ty.0 >= sheet.types.type_count() {
        return Ok(u32::MAX);
    }
    if !are_nodes(sheet.nodes.as_slice(), children.as_slice()) {
        return Ok(u32::MAX);
    }
    if !row_fits(
        &sheet.types,
        sheet.nodes.as_slice(),
        &kind,
        ty,
        children.as_slice(),
    ) {
        return Ok(u32::MAX);
    }
    let node = Node {
        kind,
        place: Place {
            unit: 0,
            line: 1,
            column: 1,
        },
        ty,
        children,
    };
    if append(sheet, node) {
        Ok(number as u32)
    } else {
        Err(OutOfMemory)
    }
}

// What is found at a node.
fn found(sheet: &Sheet, node: u32) -> Option<Result<i128, ConstFault>>
    requires { AreRows sheet.now.types sheet.now.nodes.items }
{
    if (node as usize) < sheet.nodes.len() {
        Some(constant(&sheet.types, sheet.nodes.as_slice(), node))
    } else {
        None
    }
}

// The nodes behind the last `count` of the stack, taken off.
fn take(alloc: Global, stack: &mut Vec<u32>, count: usize) -> Result<Vec<u32>, OutOfMemory> {
    let mut taken = Vec::new(alloc);
    if count <= stack.len() {
        for k in stack.len() - count..stack.len() {
            push_to(&mut taken, stack[k])?;
        }
        stack.truncate(stack.len() - count);
    }
    Ok(taken)
}

// The type of a node, int where there is none.
fn type_of(sheet: &Sheet, node: Option<u32>) -> TypeId {
    match node {
        Some(node) if (node as usize) < sheet.nodes.len() => sheet.nodes[node as usize].ty,
        _ => sheet.int,
    }
}

// The number that a word names, and where it names none one that no type holds.
fn value_of(word: &str) -> i128 {
    let digits = word.strip_suffix('u').unwrap_or(word);
    i128::from(digits.parse::<i64>().unwrap_or(i64::MAX))
}

// How many operands a word has: numbers and `n`, which no constant has, none; `neg` and `~` one, a condition and its branches three.
fn operands(word: &str) -> usize {
    match word {
        "neg" | "~" => 1,
        "<<" | ">>" | "/" | "%" | "+" | "*" | "|" | "-" | "<" => 2,
        "?" => 3,
        _ => 0,
    }
}

// The kind of a word's node.
fn kind_of(word: &str) -> NodeKind {
    match word {
        "n" => NodeKind::Fetch,
        "neg" | "-" => NodeKind::Arith(Op::Minus),
        "~" => NodeKind::Arith(Op::Complement),
        "<<" => NodeKind::Arith(Op::ShiftLeft),
        ">>" => NodeKind::Arith(Op::ShiftRight),
        "/" => NodeKind::Arith(Op::Divide),
        "%" => NodeKind::Arith(Op::Remainder),
        "+" => NodeKind::Arith(Op::Plus),
        "*" => NodeKind::Arith(Op::Multiply),
        "|" => NodeKind::Arith(Op::Or),
        "<" => NodeKind::Arith(Op::Less),
        "?" => NodeKind::Choose,
        _ => NodeKind::Number(Number::of(value_of(word))),
    }
}

// The type of a word's node over a first operand of a type: a number with `u` is unsigned.
fn type_over(sheet: &Sheet, word: &str, first: TypeId) -> TypeId {
    if word.strip_suffix('u').is_some() {
        sheet.unsigned
    } else if operands(word) == 0 || word == "?" || word == "<" {
        sheet.int
    } else {
        first
    }
}

// One word.
fn read(
    alloc: Global,
    sheet: &mut Sheet,
    stack: &mut Vec<u32>,
    word: &str,
) -> Result<(), OutOfMemory>
    requires { AreRows sheet.old.types sheet.old.nodes.items }
    ensures { AreRows sheet.new.types sheet.new.nodes.items }
{
    let taken = take(alloc, stack, operands(word))?;
    let children = Children::of(alloc, taken)?;
    let first = type_of(sheet, children.as_slice().first().copied());
    let ty = type_over(sheet, word, first);
    let number = push(sheet, kind_of(word), ty, children)?;
    push_to(stack, number)
}

// What is found at the last node of an expression.
fn answer(alloc: Global, words: &str) -> Result<Option<Result<i128, ConstFault>>, OutOfMemory> {
    let mut sheet = empty_sheet(alloc)?;
    let mut stack = Vec::new(alloc);
    for word in words.split(' ') {
        read(alloc, &mut sheet, &mut stack, word)?;
    }
    match stack.pop() {
        Some(node) => Ok(found(&sheet, node)),
        None => Ok(None),
    }
}

// The value of 1 + 1 + .. of so many terms.
fn long_sum(alloc: Global, terms: u32) -> Result<Option<Result<i128, ConstFault>>, OutOfMemory> {
    let mut sheet = empty_sheet(alloc)?;
    let mut stack = Vec::new(alloc);
    read(alloc, &mut sheet, &mut stack, "1")?;
    'terms: for _term in 1..terms {
        read(alloc, &mut sheet, &mut stack, "1")?;
        read(alloc, &mut sheet, &mut stack, "+")?;
    }
    match stack.pop() {
        Some(node) => Ok(found(&sheet, node)),
        None => Ok(None),
    }
}

// Expressions in postfix order, and what is found at their last node: a value, or a fault at a node.
const EXPRESSIONS: &str = "1 31 << => range 2
1 32 >> => range 2
1 -1 << => range 2
1 0 / => zero 2
1u 0u % => zero 2
-1 1 << => -2
-5 1 >> => -3
4294967295u 1u + => 0
4294967295u 4294967295u * => 1
-7 2 / => -3
-7 2 % => -1
-2147483648 -1 % => 0
-2147483648 -1 / => range 2
-6 3 | => -5
1u 2u - => 4294967295
-1 1 < => 1
2147483647 neg 1 - => -2147483648
0 1 0 / 2 ? => 2
1 1 n 1 0 ? ? => open 2
5u ~ => 4294967290";

// What the text behind the arrow tells.
fn wanted(text: &str) -> Option<Result<i128, ConstFault>> {
    let at = number(text, 1);
    match word(text, 0) {
        "range" => Some(Err(ConstFault::Range(at))),
        "zero" => Some(Err(ConstFault::DivideByZero(at))),
        "open" => Some(Err(ConstFault::NotConstant(at))),
        value => Some(Ok(i128::from(value.parse::<i64>().ok()?))),
    }
}

#[test]
fn expressions(rt: HostRuntime) -> Result<(), OutOfMemory> {
    for row in EXPRESSIONS.split('\n') {
        let (words, value) = sides(row);
        let given = answer(rt.alloc(), words)?;
        assert!(rt; given.is_some() && given == wanted(value), "{row}");
    }
    Ok(())
}

// A sum of many terms is deep on its left.
#[test]
fn sums(rt: HostRuntime) -> Result<(), OutOfMemory> {
    assert!(rt; long_sum(rt.alloc(), 100000)? == Some(Ok(100000)));
    Ok(())
}

// C11 6.3.1.2 and 6.3.1.3.
#[test]
fn conversions(rt: HostRuntime) {
    let int = || Term::Integer {
        size: 4,
        rank: 4,
        signed: true,
    };
    let byte = |signed: bool| Term::Integer {
        size: 1,
        rank: 2,
        signed,
    };
    assert!(rt; convert(200, int(), byte(true)) == -56);
    assert!(rt; convert(-1, int(), byte(false)) == 255);
    assert!(rt; convert(256, int(), Term::Bool) == 1);
    assert!(rt; convert(256, int(), byte(false)) == 0);
}

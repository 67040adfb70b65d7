//! Expressions with their trees, and texts that aren't read with their first faults.
use crate::fields::sides;
use c_grammar::terminals::spelled;
use c_grammar::{Scopes, SyntaxNode, Tree};
use c_lexer::lexer::tokens;
use c_lexer::{LexFault, Tokens};
use c_parser::{
    ParseFault, parse_declaration, parse_expression, parse_initialiser, parse_type_name,
};
use std::alloc::{AllocError, Global};
use std::test::Fail;

/// Adds a token as it is spelled.
fn write_leaf(out: &mut String, tokens: &Tokens, token: u32) -> Result<(), AllocError> {
    if let Some(token) = tokens.list.get(token as usize) {
        for byte in spelled(tokens.text, *token) {
            out.push(char::from(*byte))?;
        }
    }
    Ok(())
}

/// Adds what is shown of some nodes.
fn write_parts(out: &mut String, children: &[u32], shown: &[String]) -> Result<(), AllocError> {
    for (i, child) in children.iter().enumerate() {
        out.push_str(if i > 0 { " " } else { "" })?;
        if let Some(part) = shown.get(*child as usize) {
            out.push_str(part.as_str())?;
        }
    }
    Ok(())
}

/// Adds a node in parentheses, where it hasn't one child alone; a leaf as it is spelled.
fn write_node(
    out: &mut String,
    tokens: &Tokens,
    node: &SyntaxNode,
    shown: &[String],
) -> Result<(), AllocError> {
    let children = node.children.as_slice();
    if node.production == u32::MAX {
        return write_leaf(out, tokens, node.token);
    }
    if children.len() == 1 {
        return write_parts(out, children, shown);
    }
    out.push('(')?;
    write_parts(out, children, shown)?;
    out.push(')')?;
    Ok(())
}

/// The last node, where children have smaller numbers.
fn show(alloc: Global, tokens: &Tokens, tree: &Tree) -> Result<String, AllocError> {
    let mut shown = Vec::new(alloc);
    for node in &tree.nodes {
        let mut text = String::new(alloc);
        write_node(&mut text, tokens, node, &shown)?;
        shown.push(text)?;
    }
    match shown.pop() {
        Some(last) => Ok(last),
        None => Ok(String::new(alloc)),
    }
}

fn lexed<'a>(alloc: Global, text: &'a [u8]) -> Result<Tokens<'a>, LexFault> {
    tokens(alloc, text)
}

fn empty(alloc: Global) -> Tree {
    Tree {
        unit: 0,
        nodes: Vec::new(alloc),
        root: 0,
    }
}

/// A fault as it prints.
fn show_fault(alloc: Global, fault: ParseFault) -> Result<String, Fail> {
    Ok(format!(in alloc; "{fault:?}")?)
}

/// What `parse_expression` makes of tokens among which `T` is a typedef name: the tree, or the fault.
fn parsed(alloc: Global, tokens: &Tokens, depth: u32) -> Result<String, Fail> {
    if tokens.list.len() > 1000 || depth > 256 {
        return Err(Fail::new("too many tokens"));
    }
    let mut scopes = Scopes::new(alloc);
    scopes.declare(b"T", true)?;
    let mut tree = empty(alloc);
    match parse_expression(alloc, tokens, 0, depth, &mut scopes, &mut tree) {
        Ok(end) => {
            if end != tokens.list.len().saturating_sub(1) {
                return Err(Fail::new("not read to the end"));
            }
            Ok(show(alloc, tokens, &tree)?)
        }
        Err(fault) => show_fault(alloc, fault),
    }
}

/// What comes of a text, as it prints.
fn expression(alloc: Global, text: &[u8], depth: u32) -> Result<String, Fail> {
    let tokens = lexed(alloc, text)?;
    parsed(alloc, &tokens, depth)
}

/// Whether the text of a row prints as the row says.
fn is_shown(alloc: Global, row: &str) -> Result<bool, Fail> {
    let (text, wanted) = sides(row);
    let found = expression(alloc, text.as_bytes(), 0)?;
    Ok(found.as_str() == wanted)
}

// The groups of C11 6.5, written by hand.
const TREES: &str = "a-b-c => (a - b - c)
-a*b+c => (((- a) * b) + c)
a+b*c<<d => ((a + (b * c)) << d)
a<b==c => ((a < b) == c)
a&&b||c&&d => ((a && b) || (c && d))
a|b^c&d => (a | (b ^ (c & d)))
a=b+=c => (a = (b += c))
a?b:c=d => ((a ? b : c) = d)
a?b,c:d?e:f => (a ? (b , c) : (d ? e : f))
a,b,c => (a , b , c)
*p++=&q => ((* (p ++)) = (& q))
f(a,b)[1].c->d-- => (f (( a , b )) ([ 1 ]) (. c) (-> d) --)
f() => (f (( )))
(T)-x => (( (T ()) ) (- x))
(x)-y => ((( x )) - y)
sizeof(T)*x => ((sizeof ( (T ()) )) * x)
sizeof(x) => (sizeof (( x )))
sizeof x+y => ((sizeof x) + y)
(T){1,2}.m => (( (T ()) ) { (1 , 2) } (. m))
\"x\" \"y\" => (\"x\" \"y\")
(__builtin_va_list)x => (( (__builtin_va_list ()) ) x)
__builtin_va_arg(a,int)+b => ((__builtin_va_arg ( a , (int ()) )) + b)
__builtin_va_start(a,(n)) => (__builtin_va_start ( a , (( n )) ))
__builtin_va_end(a[0]) => (__builtin_va_end ( (a ([ 0 ])) ))
x.__builtin_va_end => (x (. __builtin_va_end))
!~-+x => (! (~ (- (+ x))))
(unsigned long long int)x => (( ((unsigned long long int) ()) ) x)";

#[test]
fn trees(rt: HostRuntime) -> Result<(), Fail> {
    for row in TREES.split('\n') {
        assert!(rt; is_shown(rt.alloc(), row)?, "{row}");
    }
    Ok(())
}

// The first token that doesn't fit.
const FAULTS: &str = "a+ => Malformed(2)
p=) => Malformed(2)
sizeof ) => Malformed(1)
a+1.5 => Unsupported(Floating, 2)
&&a => Unsupported(LabelAddress, 0)
a&&&&b => Unsupported(LabelAddress, 2)
({1;}) => Unsupported(StatementExpression, 0)
__builtin_f(1) => Unsupported(Builtin, 0)
__builtin_va_list => Unsupported(Builtin, 0)
__builtin_va_start(a) => Malformed(3)
__builtin_va_end => Malformed(1)
__builtin_va_arg(a,b) => Malformed(4)
_Generic(1) => Unsupported(Generic, 0)
a=L'a' => Unsupported(Wide, 2)
a='ab' => Unsupported(Character, 2)
(unsigned __int128)a => Unsupported(WideInteger, 2)
(const typeof(a))a => Unsupported(Typeof, 2)
(long float)a => Malformed(2)
(unsigned long double)a => Malformed(3)
(unsigned long unsigned)a => Malformed(3)
(int T)a => Malformed(2)
(int(*)(a))b => Unsupported(OldParameters, 6)";

#[test]
fn faults(rt: HostRuntime) -> Result<(), Fail> {
    for row in FAULTS.split('\n') {
        assert!(rt; is_shown(rt.alloc(), row)?, "{row}");
    }
    Ok(())
}

/// A byte between so many opening ones and as many closing ones.
pub(crate) fn nested(
    alloc: Global,
    open: u8,
    inner: u8,
    close: u8,
    pairs: usize,
) -> Result<Vec<u8>, Fail> {
    let before = vec![in alloc; open; pairs]?;
    let behind = vec![in alloc; close; pairs]?;
    let mut text = Vec::new(alloc);
    text.extend_from_slice(before.as_slice())?;
    text.push(inner)?;
    text.extend_from_slice(behind.as_slice())?;
    Ok(text)
}

// Each pair of parentheses opens an assignment, a conditional and a cast: 84 pairs within one more construct leave room for the
// innermost operand, and 85 pairs don't.
#[test]
fn nesting(rt: HostRuntime) -> Result<(), Fail> {
    let near = nested(rt.alloc(), b'(', b'0', b')', 84)?;
    let read = expression(rt.alloc(), near.as_slice(), 1)?;
    assert!(rt; read.as_str().starts_with("(( (( (( "));
    let deep = nested(rt.alloc(), b'(', b'0', b')', 85)?;
    let refused = expression(rt.alloc(), deep.as_slice(), 1)?;
    assert!(rt; refused.as_str() == "TooDeep(85)");
    Ok(())
}

// Each of the other calls once: a declaration makes its name a typedef name, which the type name then is; and the scopes stay as
// they are where an initialiser is read.
#[test]
fn other_calls(rt: HostRuntime) -> Result<(), Fail> {
    let alloc = rt.alloc();
    let text = b"typedef int*S,t[3];S(*[2])(S){.a[1]=1,{2},}";
    let tokens = lexed(alloc, text)?;
    assert!(rt; tokens.list.len() == 35);
    let mut scopes = Scopes::new(alloc);
    let mut tree = empty(alloc);
    let declared = parse_declaration(alloc, &tokens, 0, 0, &mut scopes, &mut tree);
    assert!(rt; matches!(declared, Ok(10)));
    assert!(rt; scopes.is_type(b"S"));
    assert!(rt; scopes.is_type(b"t"));
    let named = parse_type_name(alloc, &tokens, 10, 0, &mut scopes, &mut tree);
    assert!(rt; matches!(named, Ok(20)));
    let initialised = parse_initialiser(alloc, &tokens, 20, 0, &mut scopes, &mut tree);
    assert!(rt; matches!(initialised, Ok(34)));
    Ok(())
}

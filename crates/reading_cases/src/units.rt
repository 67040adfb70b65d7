//! Whole units and their first faults.
use crate::fields::{number, word};
use crate::parsing::nested;
use c_grammar::Tree;
use c_grammar::productions::STATEMENT;
use c_lexer::Tokens;
use c_lexer::lexer::tokens;
use c_parser::ParseFault;
use c_parser::c_units::parse_unit;
use std::alloc::Global;
use std::test::Fail;

/// What comes of a unit: `read`, or why it isn't read, by its kind, line and column.
type Outcome = (&'static str, u32, u32);

/// A fault's kind and its token.
fn kind_of(fault: ParseFault) -> (&'static str, u32) {
    match fault {
        ParseFault::Malformed(at) => ("malformed", at),
        ParseFault::Unsupported(kind, at) => (kind.name(), at),
        ParseFault::TooDeep(at) => ("too-deep", at),
        ParseFault::OutOfMemory => ("no memory", 0),
    }
}

/// The line and the column of a token.
fn place_of(tokens: &Tokens, at: u32) -> (u32, u32) {
    match tokens.list.get(at as usize) {
        Some(token) => (token.line, token.column),
        None => (0, 0),
    }
}

/// Where and why tokens aren't read.
fn refused(tokens: &Tokens, fault: ParseFault) -> Outcome {
    let (kind, at) = kind_of(fault);
    let (line, column) = place_of(tokens, at);
    (kind, line, column)
}

/// What comes of tokens.
fn come_of(alloc: Global, tokens: &Tokens) -> Outcome {
    if tokens.list.len() > 10000 {
        return ("too many tokens", 0, 0);
    }
    match parse_unit(alloc, tokens, 7) {
        Ok(_) => ("read", 0, 0),
        Err(fault) => refused(tokens, fault),
    }
}

/// Whether a text comes to the outcome that these words tell: `read`, or a fault's kind, its line and its column.
fn comes_to(alloc: Global, text: &[u8], wanted: &str) -> bool {
    match tokens(alloc, text) {
        Ok(found) => {
            let (kind, line, column) = come_of(alloc, &found);
            kind == word(wanted, 0) && line == number(wanted, 1) && column == number(wanted, 2)
        }
        Err(_) => false,
    }
}

/// Units, and what comes of them: `read`, or why it isn't read, with line and column.
const UNITS: &str = "`read~
int main(void){return 0;}`read~
int main(void){return 0}`malformed 1 24~
int main(void){`malformed 1 16~
int f(a) int a; {return 0;}`old-parameters 1 7~
int n;int main(void){\n1.5;\nreturn 0;}\n`floating 2 1~
asm(\"x\");`asm 1 1~
int x asm(\"y\");`read~
_Thread_local int x;`thread-local 1 1~
double _Complex z;`complex 1 8~
int typeof;`typeof 1 5~
void f(void){typeof(int) x;}`typeof 1 14~
int a[]={[1 ... 2]=3};`range 1 13~
_Float32 x; float f(double); int __builtin_f(int);`read~
typedef int T; T T;`read~
typedef int T; T (x); void f(T T){T=1;}`read~
typedef int T; int T; T x;`malformed 1 23~
typedef int T; void f(void){{int T;T=1;}T x;T:;}`read~
enum{A}; void f(int A){A=1;}`read~
typedef int T;int f(enum{T}x){T*x;return 0;}`read~
typedef int T;int g();int f(enum{T}x){return g(T,(T));}`read~
typedef int T;int f(int g(enum{T}x)){T*y;return 0;}`read~
typedef int T;int f(int g(enum{T}x)){return g((T));}`malformed 1 50~
int struct s y;`malformed 1 5~
static x;`malformed 1 8~
int (*f(void))(int){return 0;}`read~
int (*k(void))[2][3]{return 0;}`read~
int f(void)[3]{`malformed 1 15~
int *f{`malformed 1 7~
int x=)`malformed 1 7~
int f(int a,int b,...){for(int i=0;i<a;i++)b+=i;do;while(0);goto l;l:return b;}`read~
struct s{int a:3,:2;struct s*n;}v={.a=1};union{int i;}u;_Static_assert(1,\"\");`read";

#[test]
fn units(rt: HostRuntime) {
    for row in UNITS.split("~\n") {
        let (text, wanted) = row.split_once('`').unwrap_or((row, ""));
        assert!(rt; comes_to(rt.alloc(), text.as_bytes(), wanted), "{row}");
    }
}

/// So many nested blocks in a function.
fn blocks(alloc: Global, depth: usize) -> Result<Vec<u8>, Fail> {
    let inner = nested(alloc, b'{', b';', b'}', depth)?;
    let mut text = b"int main(void){".to_vec(alloc)?;
    text.extend_from_slice(inner.as_slice())?;
    text.extend_from_slice(b"return 0;}")?;
    Ok(text)
}

// 255 blocks leave room for the statement in the last of them.
#[test]
fn nested_blocks(rt: HostRuntime) -> Result<(), Fail> {
    let near = blocks(rt.alloc(), 255)?;
    assert!(rt; comes_to(rt.alloc(), near.as_slice(), "read"));
    let deep = blocks(rt.alloc(), 256)?;
    assert!(rt; comes_to(rt.alloc(), deep.as_slice(), "too-deep 1 272"));
    Ok(())
}

/// Whether a leaf of that token is among the children of a node.
fn has_leaf(tree: &Tree, children: &[u32], keyword: u32) -> bool {
    for child in children {
        if let Some(leaf) = tree.nodes.get(*child as usize)
            && leaf.production == u32::MAX
            && leaf.token == keyword
        {
            return true;
        }
    }
    false
}

/// The first token of the statement that has a leaf of that token among its children.
fn first_of(tree: &Tree, keyword: u32) -> Option<u32> {
    for node in &tree.nodes {
        if node.production == STATEMENT && has_leaf(tree, node.children.as_slice(), keyword) {
            return Some(node.token);
        }
    }
    None
}

// The else of two ifs goes with the nearer one: its leaf is a child of the statement that begins with the inner `if`.
#[test]
fn nearer_else(rt: HostRuntime) -> Result<(), Fail> {
    let text = b"int main(void){if(1)if(0)a();else b();return 0;}";
    let tokens = tokens(rt.alloc(), text)?;
    assert!(rt; tokens.list.len() < 100);
    let tree = parse_unit(rt.alloc(), &tokens, 3)?;
    assert!(rt; tree.unit == 3);
    assert!(rt; matches!(first_of(&tree, 18), Some(10)));
    Ok(())
}

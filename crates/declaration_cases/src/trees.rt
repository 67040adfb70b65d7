//! Trees that are made by hand, by the nodes of their texts, and what they show.

/// Texts, each with a line for each node of its tree, which has its production, its first token and its children, as far as they matter;
/// and what the tree shows:
///
/// - `parent 4 6`: node 4 has that parent, or `none`;
/// - `above loop 6 7`: the nearest node above node 6 that is a loop, or `none`; so for `breakable` and `switch`;
/// - `word 33 0`: node 0 is the leaf of the keyword of that number;
/// - `signs 32 1 4 5`: of nodes 4 and 5 so many, one, are that sign;
/// - `static 5 10`: the name of leaf 5 is declared at file scope with `static` and no other storage word, is no parameter and no function
///   that is defined, and has that initialiser;
/// - `enumerator-is 4 3 1`: the enumerator at node 4, with leaf 3, has that value;
/// - `type-is 4 8 5 unsigned 1 3`: the specifiers at node 4, with these children, name the integer type of that size, rank and sign; with
///   `none` they don't fit.
pub(crate) const TREES: &str = "while(1)break;
leaf 0
leaf 1
leaf 2
leaf 3
leaf 4
leaf 5
statement 4 4 5
statement 0 0 1 2 3 6
# A break stands in a loop, and in no switch (C11 6.8.6.3).
parent 4 6
parent 6 7
parent 7 none
above loop 6 7
above breakable 5 7
above switch 6 none
word 33 0
signs 32 1 4 5

static int x=1;
leaf 0
storage 0 0
leaf 1
type 1 2
specs 0 1 3
leaf 2
declarator 2 5
leaf 3
leaf 4
primary 4 8
init 4 9
rest 3 7 10
leaf 5
external 0 4 6 11 12
# x is declared at file scope with `static`, and has an initialiser.
static 5 10

A,B
leaf 0
enumerator 0 0
leaf 1
leaf 2
enumerator 2 3
enumerators 0 1 2 4
# The first enumerator is 0, and the next one counts on (C11 6.7.2.2p3).
enumerator-is 1 0 0
enumerator-is 4 3 1

long unsigned x
leaf 0
type 0 0
leaf 1
type 1 2
specs 0 1 3
leaf 2
declarator 2 5
declaration 0 4 6
# `long unsigned` is unsigned long: its size is 8, and its rank is above that of int (C11 6.7.2p2).
type-is 4 8 5 unsigned 1 3

static extern int x
leaf 0
storage 0 0
leaf 1
storage 1 2
leaf 2
type 2 4
specs 0 1 3 5
leaf 3
declarator 3 7
declaration 0 6 8
# At most one storage word stands in specifiers (C11 6.7.1p2).
type-is 6 none - - 1 3 5
type-is 6 4 4 signed 1 5";

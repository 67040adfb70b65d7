//! Two programs, and their locations: a unit in the form in which GCC writes it, and one with a union, members without names, locals of
//! one name, a compound literal, and allocating functions that are named otherwise than in a call, which is entered from outside.

/// The programs. Each has a line for each of its types, entities and nodes in order, and for what is wanted of it; `-` is an empty name:
///
/// - `unit list.i`: its one unit; `entry 10`: an entity at which it is entered;
/// - `type struct a 2 b 1`: a structure of two members with their types by their numbers; also `char`, `int`, `pointer 0`, `array 0 2`,
///   `union ..`, and `function 1 2`, a function that gives type 1 and takes type 2, or nothing where the two are the same;
/// - `entity w 12 30 2 local parameter 5`: its name, its line and column, the number of its type, its linkage, its storage and its owner;
/// - `node call - 14 26 2 4 5`: what it is, of what, its line and column, the number of its type, and its children;
/// - `location g.u 9 collapsed`: the next location, with its type number, and whether the object is collapsed to it;
/// - `lacking strtod`: a name that no location has;
/// - `first call 6 4`: an object, and its first location;
/// - `spot entity 3 5 .2 .0`: an object, the location that a path from it leads to, and the steps: members behind a dot, and elements.
pub(crate) const PROGRAMS: &str = "unit list.i
# A list of words. Type 3 is `struct node { struct node *next; const char *word; }`, where `next` may be any pointer here. The nodes
# are its text, its call of malloc under a conversion, and the names of the other functions.
type char
type int
type pointer 0
type struct next 2 word 2
type pointer 3
type function 1 2
type function 1 1
type array 0 4
entity malloc 4 14 5 external declared none
entity __errno_location 5 13 6 external declared none
entity __ctype_b_loc 6 35 6 external declared none
entity strtod 8 15 6 external declared none
entity main 20 5 5 external body none
entity push 12 13 5 internal body none
entity head 11 21 4 internal static none
entity w 12 30 2 local parameter 5
entity n 14 16 4 local automatic 5
entity argv 20 27 2 local parameter 4
entity argc 20 14 1 local parameter 4
node text one 23 10 7
node function 2 22 9 6
node function 1 24 9 6
node function 0 14 20 5
node decay - 14 20 2 3
node number 16 14 27 1
node call - 14 26 2 4 5
node convert - 14 26 4 6
location list.i:head 4 apart
location list.i:push 5 apart
location list.i:push/w 4 apart
location list.i:push/n 4 apart
location malloc@list.i:14:26 8 apart
location malloc@list.i:14:26.next 4 apart
location malloc@list.i:14:26.word 4 apart
location main 5 apart
location main/argc 2 apart
location main/argv 4 apart
location str@list.i:23:10 0 apart
location malloc 5 apart
location __errno_location 5 apart
location __ctype_b_loc 5 apart
location <errno> 2 apart
location <ctype> 4 apart
location <ctypes> 1 apart
location <argv> 4 apart
location <arg> 0 apart
lacking strtod
first call 6 4
first entity 5 1
first text 0 10
first library 8 16
first function 0 11
first star 0 none
first outside - none

unit a.i
# Type 5 is that of `struct s { int a[2]; struct {int*p;} *q; struct {int*p;}; union {int x; int*y;} u; } g;`, where `q` may be any
# pointer here. The nodes are malloc's name alone, calls of strdup and malloc, and the compound literal.
type int
type pointer 0
type array 0 2
type struct p 1
type union x 0 y 1
type struct a 2 q 1 - 3 u 4
type function 0 1
entity malloc 1 7 6 external declared none
entity strdup 1 34 6 external declared none
entity h 1 62 1 external static none
entity g 2 73 5 external static none
entity f 3 13 6 internal body none
entity b 3 19 0 local parameter 4
entity b 3 27 0 local automatic 4
entity c 3 41 0 local static 4
entity l 3 48 1 local automatic 4
entity - 3 49 2 local automatic 4
entity main 4 5 0 external body none
node function 0 1 83 6
node decay - 1 83 1 0
node function 1 3 61 6
node decay - 3 61 1 2
node text x 3 68 2
node call - 3 67 1 3 4
node function 0 3 73 6
node decay - 3 73 1 6
node call - 3 79 1 7
node literal 9 3 49 2
entry 10
location h 4 apart
location g 10 apart
location g.a 2 apart
location g.q 4 apart
location g.#2 8 apart
location g.#2.p 4 apart
location g.u 9 collapsed
location a.i:f 5 apart
location a.i:f/b@3:19 2 apart
location a.i:f/b@3:27 2 apart
location a.i:f/c 2 apart
location a.i:f/l 4 apart
location lit@a.i:3:49 2 apart
location strdup@a.i:3:67 0 apart
location str@a.i:3:68 2 apart
location malloc@a.i:3:79 5 collapsed
location main 5 apart
location malloc 5 apart
location strdup 5 apart
location malloc@* 5 collapsed
location <outside> 5 collapsed
lacking strtod
first star 0 19
first outside - 20
spot entity 3 5 .2 .0
spot entity 3 2 .0 1
spot entity 3 6 .3 .1
spot entity 3 none .4
spot call 8 15 7
spot call 6 none";

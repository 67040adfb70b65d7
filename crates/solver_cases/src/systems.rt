//! Systems as text, with their least sets and call graphs, which were worked out on paper. Each system has at most 64 locations, so
//! that each row is one word: bit l is location l.
//!
//! A system is a name and lines, of which each begins with a word:
//!
//! - `# ..`: what it is a system of;
//! - `rows 8`: how many rows it has;
//! - `locations int pair blob f0`: an object of each of these types, in order, a whole object without a known type, and the function
//!   of that number;
//! - `address 2 0`: row 2 has location 0; `copy 4 6`: what row 4 has row 6 has; `load 3 4 int`: what row 3 leads to, read at that type
//!   into row 4; `store 3 5`: what row 3 leads to gets what row 5 has; `member 4 6 1`: row 6 is that member of the pair that row 4
//!   leads to; `contents 10 11`: what row 10 leads to gets what the objects hold that row 11 leads to; `call 0`: the rule of a call;
//! - `function 3 2 takes 4 5 gives 10`: the next function, at location 3 and of signature 2, with a row for each parameter and the
//!   rows of its result, of the library where effects follow, as `does copy 1 2`;
//! - `site 5 13 2 takes 11 12 gives 14 makes 4 8 at 6 5`: the next call, which function 5 has, of what row 13 leads to, with signature
//!   2, a row for each argument, the rows of its result, an object at location 8 that it gets from function 4, and its line and
//!   column (1 and 1); `direct ..` is a call of a function by its name;
//! - `sets 0 0 3`: its first least sets; `edge 3 0`: the next edge of its call graph; `left 4`: how many rows are left once rows share.

/// The systems.
pub(crate) const SYSTEMS: &str = "pointers
# int x,y,*p,**q,*r,*s; p=&x; q=&p; r=*q; s=&y; *q=s; row 6 is a copy of r, and row 7 what q leads to at another type.
rows 8
locations int int pointer pointer pointer pointer
copy 4 6
load 3 4 pointer
load 3 7 int
store 3 5
address 2 0
address 3 2
address 5 1
sets 0 0 3 4 3 2 3 0

members
# int x; struct {int *a,*b;} t,*p; char c[4]; p=&t; p=c; row 6 is &p->b, and what it leads to gets &x.
rows 8
locations int pair pointer pointer pointer blob
store 6 7
member 4 6 1
address 7 0
address 4 1
address 4 5
sets 0 0 0 1 34 1 40 1

whole objects
# Structures s at 0 and t at 3 of three nodes each, collapsed objects c at 6 and d at 7, a pointer u at 8, and x at 9. s
# holds &x and &c, d holds &u. t and c get the contents of s and of d; u gets those of s, which has another type.
rows 15
locations pair pointer pointer pair pointer pointer blob blob pointer int
contents 10 11
contents 12 11
contents 10 13
contents 12 13
contents 14 11
address 1 9
address 2 6
address 7 8
address 10 3
address 11 0
address 12 6
address 13 7
address 14 8
sets 0 512 64 256 768 320 832 256 0 0 8 1 64 128 256

direct and indirect calls
# int x,y; f returns its argument and g returns &x; h takes an argument of another type. main calls f with &x, and with &y
# what the pointer at location 2 may be, which is g or h. Rows: 10 and 11 the results of f and g, 12 to 14 the first
# call's function, argument and result, 15 and 16 the second call's argument and result.
rows 17
locations int int pointer f0 pointer f1 pointer f2 pointer f3
call 0
call 1
copy 4 10
address 11 0
address 12 3
address 13 0
address 2 5
address 2 7
address 15 1
function 3 2 takes 4 gives 10
function 5 2 takes 6 gives 11
function 7 3 takes 8
function 9 4
site 3 12 2 takes 13 gives 14
site 3 2 2 takes 15 gives 16
sets 0 0 160 0 1 0 2 0 0 0 1 1 8 1 1 2 1
edge 3 0
edge 3 1

effects
# int x,*v,*w; memcpy(&w,&v); atexit(k); getter() gives the object at 8. The last call, of a function that gives a new
# object, has none of that function, so that nothing is demanded; nor is it for an object of a function that isn't called.
# Rows: 11 to 14 memcpy's arguments, function and result, 15 to 17 atexit's argument, function and result, 18 and 19
# getter's function and result, 20 to 22 the last call's argument, function and result.
rows 23
locations int pointer pointer f0 f1 f2 f3 f4 pointer f5
call 0
call 1
call 2
call 3
address 1 0
address 11 2
address 12 1
address 13 3
address 15 5
address 16 4
address 18 6
address 20 1
address 21 7
function 3 2 does give-argument 1 does copy 1 2
function 4 3 does call-back 1
function 5 1
function 6 4 does nothing does give-object 0
function 7 5 does give-new does copy 0 1
function 9 6
site 5 13 2 takes 11 12 gives 14 makes 4 8
site 5 16 3 takes 15 gives 17 makes 4 8
site 5 18 4 takes 17 gives 19 makes 3 8
site 5 21 5 takes 20 gives 22 makes 0 8
sets 0 1 1 0 0 0 0 0 0 0 0 4 2 8 4 32 16 0 64 256 2 128 0
edge 1 2
edge 5 0
edge 5 1
edge 5 3
edge 5 4

sorting parsing and reallocating
# int x,*v[2]; int c(const void*l,const void*r){return 0;} char s[4],*e; int **d; and in main
# v[0]=&x; qsort(v,2,sizeof v[0],c); strtol(s,&e,10); d=realloc(d,16); d[0]=v[1]; d=realloc(d,32);
# Locations 0 x, 1 v, 2 c/l, 3 c/r, 4 s, 5 e, 6 d, 7 and 8 the two new objects, 9 c, 10 main, 11 qsort, 12 strtol, 13 realloc.
# Row 14 is a row that no constraint fills.
rows 25
locations int pointer pointer pointer int pointer pointer pointer pointer f0 f1 f2 f3 f4
address 1 0
address 15 1
address 16 9
address 17 11
call 0
address 18 4
address 19 5
address 20 12
call 1
address 21 13
call 2
copy 22 6
store 6 1
address 23 13
call 3
copy 24 6
function 9 0 takes 2 3 gives 14
function 10 2 takes 14 gives 14
function 11 3 takes 14 does call-back 4 1 1
function 12 4 takes 14 does store 2 1
function 13 5 takes 14 does give-new does copy 0 1
site 1 17 3 takes 15 14 14 16 gives 14 makes 4 7
site 1 20 4 takes 18 19 14 gives 14 makes 4 8
site 1 21 5 takes 6 14 gives 22 makes 4 7
site 1 23 5 takes 6 14 gives 24 makes 4 8
sets 0 1 2 2 0 16 384 1 1 0 0 0 0 0 0
edge 1 2
edge 1 3
edge 1 4
edge 2 0

allocating
# void *xm(unsigned long k){return malloc(k);} int x; struct {void *next,*v;} *a,*b; and in main
# a=malloc(16); b=xm(16); a->next=b; b->v=&x;
# Locations 0 x, 1 a, 2 b, 3 to 5 the structure that main allocates, 6 what xm allocates, 7 malloc, 8 xm, 9 main.
# Row 10 is a row that no constraint fills, and row 11 what xm returns.
rows 18
locations int pointer pointer pair pointer pointer blob f0 f1 f2
address 12 7
address 13 7
address 14 8
call 0
call 1
call 2
member 1 15 0
store 15 2
member 2 16 1
address 17 0
store 16 17
function 7 2 does give-new
function 8 2 takes 10 gives 11
function 9 3 gives 10
site 1 12 2 takes 10 gives 11 makes 0 6
site 2 13 2 takes 10 gives 1 makes 0 3
site 2 14 2 takes 10 gives 2
sets 0 8 64 0 64 0 1 0 0 0 0 64
edge 1 0
edge 2 0
edge 2 1

a ring
# Copies in a ring, from 2 to 1, from 3 to 2 and from 1 to 3, and 3 gets an address.
rows 4
locations pointer pointer pointer pointer
copy 2 1
copy 3 2
copy 1 3
address 3 0
sets 0 1 1 1

two addresses
# Two rows get an address in the first round, so two workers have a piece each.
rows 4
locations int int pointer pointer
copy 2 3
address 2 0
address 3 1
sets 0 0 1 3

targets that calls add
# typedef void F(void); F *t[2]={f}; void f(void){t[1]=g;} and main calls t[i]().
# Locations 0 t, 1 f, 2 g, 3 main. Row 4 is what is called, row 5 &g.
rows 6
locations pointer f0 f1 f2
address 0 1
address 5 2
copy 5 0
copy 0 4
call 0
function 1 1
function 2 1
function 3 2
site 2 4 1
sets 6 0 0 0 6 4
edge 2 0
edge 2 1

a linked list
# struct node {struct node *next; const char *word;}; static struct node *head; void push(const char *w) {struct node *n =
# malloc(sizeof *n); n->next = head; n->word = w; head = n;} and main calls push(\"one\"), push(argv[0]) and
# __ctype_b_loc(). Locations 0 head, 1 w, 2 n, 3 to 5 what malloc gives, 6 the text, 7 what arguments lead to, 8 argv,
# 9 its elements, 10 push, 11 main, 12 malloc, 13 __ctype_b_loc, 14 and 15 the tables behind it.
# Row 25 is a row that no constraint fills.
rows 26
locations pointer pointer pointer pair pointer pointer int int pointer pointer f0 f1 f2 f3 pointer int
call 0
copy 17 2
member 2 18 0
store 18 0
member 2 19 1
store 19 1
copy 2 0
call 1
load 8 22 pointer
call 2
call 3
address 8 9
address 9 7
address 14 15
address 16 12
address 20 10
address 21 6
address 23 13
function 10 1 takes 1
function 11 2 takes 25
function 12 3 takes 25 does give-new
function 13 4 takes 25 does give-object 0
site 0 16 3 takes 25 gives 17 makes 2 3
site 1 20 1 takes 21
site 1 20 1 takes 22
site 1 23 4 takes 25 gives 24 makes 3 14
sets 8 192 8 0 8 192 0 0 512 128 0 0 0 0 32768 0 4096 8 16 32 1024 64 128 8192 16384 0
edge 0 2
edge 1 0
edge 1 3

one call
# A call of a function at one location; the function at the other has another signature. No row has a location.
rows 12
locations pointer f0 pointer f1 int
call 0
function 1 2 takes 2 5 gives 6
function 3 3 takes 2 gives 6
site 1 7 2 takes 8 9 10 gives 11
sets 0 0 0 0 0 0 0 0 0 0 0 0";

/// int x,*p; int main(void){p=&x;return 0;}
pub(crate) const ONE_POINTER: &str = "one pointer
rows 2
locations int pointer
address 1 0";

/// Systems of three locations with one constraint, one library function and one call, and whether they are valid.
pub(crate) const CHECKED: &str = "valid
rows 3
locations pair pointer f0
store 0 1
function 2 2 does nothing
site 0 0 2

too few rows
rows 2
locations pair pointer f0
store 0 1
function 2 2 does nothing
site 0 0 2

a row out of range
rows 3
locations pair pointer f0
copy 0 3
function 2 2 does nothing
site 0 0 2

a location out of range
rows 3
locations pair pointer f0
address 0 3
function 2 2 does nothing
site 0 0 2

a member that a type does not have
rows 3
locations pair pointer f0
member 0 1 2
function 2 2 does nothing
site 0 0 2

a function at another's location
rows 3
locations pair pointer f0
store 0 1
function 1 2 does nothing
site 0 0 2

one new object too many
rows 3
locations pair pointer f0
store 0 1
function 2 2 does nothing
site 0 0 2 makes 0 0 makes 0 1

the argument number 0
rows 3
locations pair pointer f0
store 0 1
function 2 2 does give-argument 0
site 0 0 2";

/// Systems whose rows share, and how many rows are left.
pub(crate) const SHARED: &str = "rings and chains
# Rows 1 and 2 are a ring of copies, row 3 follows row 2 and row 4 row 3; row 5 loads, and row 6 follows it.
rows 7
locations pointer pointer pointer
copy 1 2
copy 2 1
copy 2 3
copy 3 4
address 1 0
load 4 5 pointer
copy 5 6
left 4

assignments follow their values
# int x,*p,*q,*r; int main(void){p=q;q=r;r=p;r=&x;return 0;} with locations 0 x, 1 p, 2 q, 3 r and 4 main, the rows of nodes from 5
# on, and row 21 for nodes without one. Each assignment follows its value, and the address of x follows its place.
rows 22
locations int pointer pointer pointer f0
address 5 1
address 6 2
load 6 7 pointer
store 5 7
copy 7 8
address 9 2
address 10 3
load 10 11 pointer
store 9 11
copy 11 12
address 13 3
address 14 1
load 14 15 pointer
store 13 15
copy 15 16
address 17 3
address 18 0
copy 18 19
store 17 19
copy 19 20
function 4 1
left 17";

/// Row 2 has an address; what it is copied to follows when the test runs.
pub(crate) const WIDE: &str = "wide
rows 300
locations pointer pointer pointer
address 2 0";

/// Rows 0 and 75 have an address, and row 0 what row 149 has; the other copies follow when the test runs.
pub(crate) const LONG_RING: &str = "long ring
rows 150
locations pointer pointer
address 0 0
address 75 1
copy 149 0";

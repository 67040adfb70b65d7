// Expressions from the texts of their units to their core nodes, through the parser.

use c_check::{Known, Meaning};
use c_types::term::{Name, TypeId};
use core_tree::node::Unit;
use expression_texts::texts::{answer, gives, is_refusal, refusal};
use pta_base::Kind;
use std::alloc::Global;
use std::test::Fail;

// Sizes, constants, strings and casts with their core nodes, written by hand: see `gives`.
const SIZES_AND_CASTS: &str =
    "# A size leaves nothing but its number: the operand isn't evaluated, and an array stays one (C11 6.5.3.4p2, 6.3.2.1p3).
sizeof a => 41
sizeof e => 41
sizeof(a+b) => 41
sizeof \"abc\" => 41
sizeof p => 81
# Constants of octal digits, and characters, of which a tab is 9 in ASCII (C11 6.4.4.1, 6.4.4.4).
07 => 71
'\\t' => 91
# A string in parentheses is a string, and strings side by side are one, at the place of the first (C11 5.1.1.2p6, 6.5.1p5).
(\"xy\") => T2
\"ab\" \"c\" => T1
&e => e2 &1:0
# The size of a type, and its alignment, where an array has its element's (C11 6.5.3.4p2, p3). A pointer to a function that takes two
# parameters is a pointer (6.7.7).
sizeof(char) => 11
sizeof(int[2]) => 81
sizeof(char(*)(int,char*)) => 81
sizeof(t) => 81
_Alignof(int[2]) => 41
# A cast to the type that a value has adds nothing; one to another type is a conversion at the operand's place (C11 6.5.4).
(int)a => a6 F6:0
(char)a => a7 F7:0 C7:1
(t)v => d4 F4:0 C4:1
*(int*)v => d8 F8:0 C8:1 *1:2
# A cast of the constant 0 to a pointer is a null value (C11 6.3.2.3p3).
(void*)0 => N8
# Parameters in the list of a type name may have names, of functions and in parentheses too, and the type is the same (C11 6.7.6.3,
# 6.7.7). A pointer to a function is converted to another one (6.3.2.3p8).
(int(*)(int b))0 => N16
(int(*)(int(*b)[2],int d(char g)))f => f35 D35:0 C35:1
# An enumerator is a constant of type int, also where a constant is asked for (C11 6.4.4.3, 6.6p6).
c => 21
sizeof c => 41
sizeof(char[c]) => 21
a+c => a1 23 F1:0 +2:2.1";

// The same of operators between operands, calls, and what an expression declares.
const VALUES_AND_CALLS: &str =
    "# A product is made before the sum that it is part of (C11 6.5.5, 6.5.6).
a+b*2 => a1 b3 25 F3:1 x4:3.2 F1:0 +2:5.4
# An assignment that computes takes the place itself and the right operand's value (C11 6.5.16.2).
a+=b => a1 b4 F4:1 u2:0.2
# What counts up a pointer is under the star (C11 6.5.2.4, 6.5.3.2).
*p++ => c2 13 U3:0.1 *1:2
# An integer may stand before the brackets; the pointer comes first (C11 6.5.2.1p2).
a[p] => a1 c3 F1:0 F3:1 P2:3.2 *2:4
# The right operand of && stands in a branch alone (C11 6.5.13p4).
a&&b => a1 b4 F1:0 F4:1 12 02 ?2:3.4.5 02 ?2:2.6.7
# A constant 0 that is assigned to a pointer, or stands beside one, is a null value, also where it has to be computed
# (C11 6.3.2.3p3, 6.5.16.1p1).
p=1-1 => c1 N4 A2:0.1
# Beside a pointer to void the other one is converted (C11 6.5.9p5).
p==v => c1 d4 F1:0 F4:1 C1:2 =2:4.3
# Beside a pointer the constant 0 of a choice becomes one (C11 6.5.15p6).
a?p:0 => a1 c3 F1:0 F3:1 N5 ?2:2.3.4
# A call takes the value of what is called and of each argument, one past the list too, and one for a parameter is converted to its
# type (C11 6.5.2.2p4, p7).
f(p,a) => f1 c3 a5 D1:0 F3:1 F5:2 (2:3.4.5
# A function without a list of parameters takes any, where no declaration of its name before may have given one (C11 6.5.2.2p6,
# 6.2.7p4).
g(a) => f1 a3 D1:0 F3:1 (2:2.3
f(0) => f1 D1:0 N3 (2:1.2
# A function that is declared several times takes what its declarations say together, and an array has the length that one of them
# gives (C11 6.2.7p4).
h(a) => f1 a3 D1:0 F3:1 (2:2.3
sizeof k => 31
# Structures are named by their tags, and an operand of sizeof may declare some, with members, or enumerators that are constants from
# there on (C11 6.7.2.1 to 6.7.2.3).
(struct s*)v => d12 F12:0 C12:1
sizeof(struct r*) => 81
sizeof(struct{char i[3];}) => 31
sizeof(union{int i;char j;}) => 41
sizeof(enum{m=5}) => 41
sizeof(char[sizeof(enum{m=5})+m]) => 91
# A parameter is an object of its type within its own list (C11 6.2.1p4), and an initialiser in an operand of sizeof makes nothing, but
# it gives an array its length (6.7.9p22).
sizeof(int(*)(int n,int[sizeof n])) => 81
sizeof(char[]){1,2} => 21
# One of the names of the function around, which is a string (C11 6.4.2.2p1).
__func__ => T1";

// The same of operators before one operand, members, pointers and conversions between them.
const PREFIXES_AND_PLACES: &str =
    "# Operators before one operand (C11 6.5.3.1, 6.5.3.2, 6.5.3.3); what a star and an ampersand undo stays.
-a => a2 F2:0 -1:1
~a => a2 F2:0 ~1:1
!p => c2 F2:0 !1:1
++a => a3 11 u1:0.1
*&a => a3 &2:0 *1:1
# A place of array type gives the pointer to its first element (C11 6.3.2.1p3).
e[0] => e1 03 D1:0 P2:2.1 *2:3
# A member of a place, through a pointer, and of a value (C11 6.5.2.3p3, p4).
z.x => h1 M2:0
(&z)->x => h3 &2:0 *5:1 M5:2
(a?z:z).x => a2 h4 h6 F2:0 F4:1 F6:2 ?3:3.4.5 V8:6
# Integers, pointers and differences of pointers (C11 6.5.6 to 6.5.8, 6.5.12); the pointer of a sum comes first.
p-p => c1 c3 F1:0 F3:1 -2:2.3
p-1 => c1 13 F1:0 Q2:2.1
1+p => 11 c3 F3:1 P2:2.0
a<<b => a1 b4 F1:0 F4:1 L2:2.3
a<b => a1 b3 F1:0 F3:1 <2:2.3
a|b => a1 b3 F1:0 F3:1 |2:2.3
# The right operand of || stands in a branch alone (C11 6.5.14p4).
a||b => a1 b4 F1:0 F4:1 12 12 02 ?2:3.5.6 ?2:2.4.7
# A structure is assigned as a whole, and a comma puts values one after the other (C11 6.5.16.1p1, 6.5.17).
z=z => h1 h3 F3:1 A2:0.2
a,b => a1 b3 F1:0 F3:1 ,2:2.3
# Casts to void, from pointers to _Bool and to integers, and between pointers: to integers of one size, and to pointers (C11 6.3.1.2,
# 6.3.2.3p6, p7, 6.5.4p2). One from a structure to the type of its first member goes up a step (6.7.2.1p15).
(void)a => a7 F7:0 C7:1
(_Bool)p => c8 F8:0 C8:1
(long)p => c7 F7:0 C7:1
(unsigned*)p => c12 F12:0 C12:1
(char**)&p => c10 &9:0 C9:1
(char*)&z => h9 &8:0 S8:1
# Of what is only looked at on the way nothing has to be known.
sizeof q => 41";

// Tags that the expression itself declares (C11 6.7.2.3): untagged, incomplete, with members, in the list of another one, and named again.
// An enumerator is named after its declaration in the same expression (6.2.1p7).
const OWN_TAGS: &str = "(enum{m=3})0+m => 012 314 +13:0.1
(struct{int i;}*)v => d18 F18:0 C18:1
(struct u*)v => d12 F12:0 C12:1
((struct u{char m;int i;}*)v)->i => d28 F28:0 C28:1 *30:2 M30:3
((struct{struct u{int i;}w;struct u*x;}*)v)->x->i => d42 F42:0 C42:1 *44:2 M44:3 F44:4 *47:5 M47:6
sizeof(struct u{char m;int i;}),((struct u*)v)->i => 81 d45 F45:1 C45:2 *47:3 M47:4 F47:5 ,32:0.6";

#[test]
fn sizes_and_casts(rt: HostRuntime) -> Result<(), Fail> {
    for row in SIZES_AND_CASTS.split('\n') {
        assert!(rt; gives(rt.alloc(), row)?, "{row}");
    }
    Ok(())
}

#[test]
fn values_and_calls(rt: HostRuntime) -> Result<(), Fail> {
    for row in VALUES_AND_CALLS.split('\n') {
        assert!(rt; gives(rt.alloc(), row)?, "{row}");
    }
    Ok(())
}

#[test]
fn prefixes_and_places(rt: HostRuntime) -> Result<(), Fail> {
    for row in PREFIXES_AND_PLACES.split('\n') {
        assert!(rt; gives(rt.alloc(), row)?, "{row}");
    }
    Ok(())
}

// Texts that are refused, with the kind and the column of the first node in the tree's order that doesn't fit (C11 6.3.2.3p1, 6.5.2.1p1,
// 6.5.2.2p1, p2, 6.5.2.3p1, p2, 6.5.3.1p1, 6.5.3.2p1, p2, 6.5.3.3p1, 6.5.3.4p1, 6.5.4p2, 6.5.5p2, 6.5.6p2, 6.5.8p2, 6.5.9p2, 6.5.15p3,
// 6.5.16p2, 6.5.16.1p1, 6.6p3, p4, 6.7.2.1p4, 6.7.2.2p2, 6.7.6.2p1, p4, 6.7.9p2), or that is outside of what is read; and what the caller
// hasn't told.
static REFUSALS: [(&str, Kind, u32); 51] = [
    ("&1", Kind::Operand, 1),
    ("a+sizeof *v", Kind::Operand, 10),
    ("p*a+&2", Kind::Operand, 1),
    ("a=p", Kind::Operand, 1),
    ("a?p:1", Kind::Operand, 1),
    ("f()", Kind::Operand, 2),
    ("f(a)", Kind::NumberToPointer, 2),
    ("a(p)", Kind::Operand, 2),
    ("a.b", Kind::Operand, 2),
    ("p->b", Kind::Operand, 2),
    ("p<v", Kind::Operand, 1),
    ("p==1", Kind::Operand, 1),
    ("*a", Kind::Operand, 1),
    ("sizeof(void)", Kind::Operand, 1),
    ("(int[2])a", Kind::Operand, 1),
    ("(t)a", Kind::NumberToPointer, 1),
    ("sizeof(int[0])", Kind::Operand, 11),
    ("sizeof(int[a])", Kind::Vla, 11),
    ("sizeof(int()[2])", Kind::Operand, 11),
    ("(int(*)(int b))v", Kind::Operand, 1),
    ("&c", Kind::Operand, 1),
    ("c=a", Kind::Operand, 1),
    ("sizeof(int(*)(int b,int d[p]))", Kind::Operand, 26),
    ("h()", Kind::Operand, 2),
    ("z.y.x", Kind::Operand, 4),
    ("sizeof(struct{int i;int i;})", Kind::Operand, 25),
    ("sizeof(enum r)", Kind::Operand, 13),
    ("o", Kind::Floating, 1),
    ("-p", Kind::Operand, 1),
    ("!z", Kind::Operand, 1),
    ("++1", Kind::Operand, 1),
    ("z+a", Kind::Operand, 1),
    ("1=a", Kind::Operand, 1),
    ("a[b]", Kind::Operand, 2),
    ("a?z:a", Kind::Operand, 1),
    ("(int)z", Kind::Operand, 1),
    ("p=&z", Kind::Operand, 1),
    ("(char*)p", Kind::IntegerSizeCast, 1),
    ("(struct r*)&z", Kind::StructureCast, 1),
    ("(char*)(struct{int i;}*)v", Kind::CharacterCast, 1),
    ("(a,y).m", Kind::ArrayOfValue, 6),
    ("x->j", Kind::FlexibleMember, 2),
    ("sizeof(int[1/0])", Kind::DivideByZero, 13),
    ("sizeof(char[-1])", Kind::Operand, 12),
    ("sizeof(char[2147483647+1])", Kind::ConstantRange, 23),
    ("sizeof(enum{m=a})", Kind::Constant, 15),
    ("sizeof(enum{m=2147483648})", Kind::Operand, 13),
    ("sizeof(struct{int i:33;})", Kind::Operand, 19),
    ("sizeof(int){1,2}", Kind::Initialiser, 15),
    ("q", Kind::NotBuilt, 1),
    ("(struct r*)v", Kind::NotBuilt, 1),
];

#[test]
fn refusals(rt: HostRuntime) -> Result<(), Fail> {
    for (text, kind, column) in &REFUSALS {
        assert!(rt;
            is_refusal(refusal(rt.alloc(), text)?, *kind, *column),
            "{text:?}"
        );
    }
    Ok(())
}

#[test]
fn own_tags(rt: HostRuntime) -> Result<(), Fail> {
    for row in OWN_TAGS.split('\n') {
        assert!(rt; gives(rt.alloc(), row)?, "{row}");
    }
    Ok(())
}

// The numbers of the tags that are known, but for that of s.
fn new_tags(alloc: Global, known: &Known) -> Result<Vec<u32>, Fail> {
    let mut tags = Vec::new(alloc);
    for entry in known.list.as_slice() {
        if let Meaning::Tag(tag) = entry.1 {
            if tag > 0 {
                tags.push(tag)?;
            }
        }
    }
    Ok(tags)
}

// Whether a member has that name.
fn is_named(name: &Option<Name>, text: &str) -> bool {
    match name {
        Some(name) => name.as_str() == text,
        None => false,
    }
}

// The type of a member of a unit's tag, in that place and with that name.
fn member_type(unit: &Unit, tag: u32, place: usize, text: &str) -> Option<TypeId> {
    if tag >= unit.types.tag_count() {
        return None;
    }
    match unit.types.members(tag)?.get(place) {
        Some(member) if is_named(&member.name, text) => Some(member.ty),
        _ => None,
    }
}

// The size of a type.
fn size_of(unit: &Unit, ty: TypeId) -> Option<u64> {
    if ty.0 < unit.types.type_count() {
        unit.types.size_of(ty)
    } else {
        None
    }
}

// Whether a member in that place has that name, and a type of that size.
fn has_member(unit: &Unit, tag: u32, place: usize, text: &str, size: u64) -> bool {
    let Some(ty) = member_type(unit, tag, place, text) else {
        return false;
    };
    match size_of(unit, ty) {
        Some(found) => found == size,
        None => false,
    }
}

// The tags that an expression declares are known afterwards, in the order of their first specifiers, and have their members in the unit:
// u is numbered before the structure in whose list it stands.
#[test]
fn tags_known_afterwards(rt: HostRuntime) -> Result<(), Fail> {
    let alloc = rt.alloc();
    let (unit, known, refusal) = answer(
        alloc,
        "((struct{struct u{int i;int j;}w;struct u*x;}*)v)->x->i",
    )?;
    assert!(rt; refusal.is_none());
    let tags = new_tags(alloc, &known)?;
    assert!(rt; tags.as_slice() == [1, 2].as_slice());
    assert!(rt; unit.types.tag_count() == 3);
    assert!(rt; has_member(&unit, 1, 0, "i", 4) && has_member(&unit, 1, 1, "j", 4));
    assert!(rt; has_member(&unit, 2, 0, "w", 8) && has_member(&unit, 2, 1, "x", 8));
    assert!(rt; has_member(&unit, 0, 1, "y", 8));
    Ok(())
}

// The values that are known, but for that of c.
fn new_values(alloc: Global, known: &Known) -> Result<Vec<i128>, Fail> {
    let mut values = Vec::new(alloc);
    for entry in known.list.as_slice() {
        if let Meaning::Value(value) = entry.1 {
            if value != 2 {
                values.push(value)?;
            }
        }
    }
    Ok(values)
}

// So are the enumerators that it declares, in their order, also those in what is only looked at.
#[test]
fn enumerators_known_afterwards(rt: HostRuntime) -> Result<(), Fail> {
    let alloc = rt.alloc();
    let text = "(enum{m=7,n})0+sizeof(enum{u=-4})";
    let (_unit, known, refusal) = answer(alloc, text)?;
    assert!(rt; refusal.is_none());
    let values = new_values(alloc, &known)?;
    assert!(rt; values.as_slice() == [7, 8, -4].as_slice());
    Ok(())
}

// After a refusal what is known is as it was.
#[test]
fn nothing_known_after_refusals(rt: HostRuntime) -> Result<(), Fail> {
    let alloc = rt.alloc();
    let (_unit, known, refusal) = answer(alloc, "(struct u{int i;}*)v,q")?;
    assert!(rt; is_refusal(refusal, Kind::NotBuilt, 1));
    assert!(rt; new_tags(alloc, &known)?.is_empty());
    Ok(())
}

//! Tokens of texts, as the standard has them.
use crate::fields::{number, sides, word};
use c_lexer::lexer::tokens;
use c_lexer::{LexFault, Token, TokenKind};
use std::alloc::Global;
use std::test::Fail;

/// The kind of token of a name, where a word and a sign have a number.
fn kind_of(name: &str, number: u32) -> TokenKind {
    match name {
        "word" => TokenKind::Keyword((number % 256) as u8),
        "sign" => TokenKind::Punctuator((number % 256) as u8),
        "name" => TokenKind::Identifier,
        "integer" => TokenKind::Integer,
        "floating" => TokenKind::Floating,
        "character" => TokenKind::Character,
        "text" => TokenKind::Text,
        _ => TokenKind::End,
    }
}

/// Whether a list is one token of a kind over so many bytes, and the end.
fn is_one(list: &[Token], kind: TokenKind, length: usize) -> bool {
    match list {
        [token, end] => {
            token.kind == kind && token.end as usize == length && end.kind == TokenKind::End
        }
        _ => false,
    }
}

/// Whether a text is one token of a kind.
fn is_token(alloc: Global, text: &str, kind: TokenKind) -> bool {
    match tokens(alloc, text.as_bytes()) {
        Ok(found) => is_one(found.list.as_slice(), kind, text.len()),
        Err(_) => false,
    }
}

/// Words, and the numbers of their keywords.
const WORDS: &str = "auto 0
break 1
case 2
char 3
const 4
continue 5
default 6
do 7
double 8
else 9
enum 10
extern 11
float 12
for 13
goto 14
if 15
inline 16
int 17
long 18
register 19
restrict 20
return 21
short 22
signed 23
sizeof 24
static 25
struct 26
switch 27
typedef 28
union 29
unsigned 30
void 31
volatile 32
while 33
_Alignas 34
_Alignof 35
_Atomic 36
_Bool 37
_Complex 38
_Generic 39
_Imaginary 40
_Noreturn 41
_Static_assert 42
_Thread_local 43
asm 44
__const 4
__const__ 4
__inline 16
__inline__ 16
__restrict 20
__restrict__ 20
__signed 23
__signed__ 23
__volatile 32
__volatile__ 32
__asm 44
__asm__ 44";

/// Signs, and their numbers.
const SIGNS: &str = "[ 0
] 1
( 2
) 3
{ 4
} 5
. 6
-> 7
++ 8
-- 9
& 10
* 11
+ 12
- 13
~ 14
! 15
/ 16
% 17
<< 18
>> 19
< 20
> 21
<= 22
>= 23
== 24
!= 25
^ 26
| 27
&& 28
|| 29
? 30
: 31
; 32
... 33
= 34
*= 35
/= 36
%= 37
+= 38
-= 39
<<= 40
>>= 41
&= 42
^= 43
|= 44
, 45
# 46
## 47
<: 0
:> 1
<% 4
%> 5
%: 46
%:%: 47";

/// Whether the text of a row is one token of this name with the row's number; `#` and `##`, the last two signs, would begin a dropped
/// line here.
fn is_numbered(alloc: Global, name: &str, row: &str) -> bool {
    let number = number(row, 1);
    (name == "sign" && number >= 46) || is_token(alloc, word(row, 0), kind_of(name, number))
}

#[test]
fn each_word_and_sign_is_one_token(rt: HostRuntime) {
    for (name, rows) in [("word", WORDS), ("sign", SIGNS)] {
        for row in rows.split('\n') {
            assert!(rt; is_numbered(rt.alloc(), name, row), "{row}");
        }
    }
}

/// Kinds of constants, and texts of each.
const CONSTANTS: &str = "integer
0
7
0777
1
9
18446744073709551615
0xFFFFFFFFFFFFFFFF
01777777777777777777777
0X1f
00
1u
1U
1l
1L
1ul
1uL
1Ul
1UL
1lu
1lU
1Lu
1LU
1ll
1LL
1ull
1uLL
1Ull
1ULL
1llu
1llU
1LLu
1LLU

floating
1.
1.5
1e5
1E+5
1.e-5
.5
.5f
1.5F
1.5l
1.5L
09.5
08e1
0x1p3
0x1.8P-3
0X.8p1
0x1.p1f

character
'a'
' '
'\"'
L'a'
u'a'
U'a'
'ab'
'\\''
'\\\"'
'\\?'
'\\\\'
'\\a'
'\\b'
'\\f'
'\\n'
'\\r'
'\\t'
'\\v'
'\\0'
'\\7'
'\\377'
'\\1234'
'\\x0'
'\\xfF'
'\\x00ff'
L'\\777'
L'\\x100'

text
\"\"
\"a\"
u8\"a\"
L\"a\"
u\"a\"
U\"a\"
\"\\\\\"
\"'\"
\"\\\"\"
\"\u{e9}\"";

#[test]
fn each_constant_is_one_token(rt: HostRuntime) {
    for block in CONSTANTS.split("\n\n") {
        let kind = kind_of(block.split('\n').next().unwrap_or(""), 0);
        for text in block.split('\n').skip(1) {
            assert!(rt; is_token(rt.alloc(), text, kind), "{text}");
        }
    }
}

/// Texts, and their first faults.
const FAULTS: &str = "0x => number 0~
0X => number 0~
08 => number 0~
18446744073709551616 => number 0~
0x10000000000000000 => number 0~
02000000000000000000000 => number 0~
1lL => number 0~
1Ll => number 0~
1uu => number 0~
1lul => number 0~
1lll => number 0~
1f => number 0~
0b1 => number 0~
1.5q => number 0~
1e => number 0~
1e+ => number 0~
0x1.8 => number 0~
0x1e+1 => number 0~
1...2 => number 0~
1..2 => number 0~
0x1g => number 0~
1_ => number 0~
0x.p1 => number 0~
1.5u => number 0~
int $; => byte 4~
a\\b => byte 1~
@ => byte 0~
` => byte 0~
\x00 => byte 0~
char*s=\"ab => unended 7~
\"a\n\" => unended 0~
'\\' => unended 0~
x \"\\$ => unended 2~
'' => unended 0~
L'' => unended 1~
L\"ab => unended 1~
\"a\\\n\" => unended 0~
'\\q' => byte 1~
\"a\\x\" => byte 2~
\"\\u0041\" => byte 1~
\"\\n\\U00000041\" => byte 3~
'\\400' => byte 1~
'\\x100' => byte 1~
u8\"\\400\" => byte 3~
__attribute__ => unended 0~
x __attribute__ y (z) => unended 2~
__attribute__((x) => unended 0~
__attribute__((x$)) => unended 0~
__attribute__((08)) => unended 0~
__attribute__((x)) 08 => number 19~
\x0c# 1\n$ => byte 5";

/// The fault of a row; of another word a text that is too long.
fn fault_of(text: &str) -> LexFault {
    let at = number(text, 1);
    match word(text, 0) {
        "number" => LexFault::BadNumber(at),
        "byte" => LexFault::BadByte(at),
        "unended" => LexFault::Unended(at),
        _ => LexFault::TooLong,
    }
}

/// Whether a text has that first fault.
fn has_fault(alloc: Global, text: &[u8], wanted: LexFault) -> bool {
    match tokens(alloc, text) {
        Ok(_) => false,
        Err(fault) => fault == wanted,
    }
}

#[test]
fn each_fault_has_its_place(rt: HostRuntime) {
    for row in FAULTS.split("~\n") {
        let (text, fault) = sides(row);
        let found = has_fault(rt.alloc(), text.as_bytes(), fault_of(fault));
        assert!(rt; found, "{row}");
    }
    assert!(rt; has_fault(rt.alloc(), b"a \x80", LexFault::BadByte(2)));
}

/// The token that a line tells: its kind, its span, its line, its column, and the number of a word or a sign.
fn token_of(line: &str) -> Token {
    Token {
        kind: kind_of(word(line, 0), number(line, 5)),
        start: number(line, 1),
        end: number(line, 2),
        line: number(line, 3),
        column: number(line, 4),
    }
}

/// Whether the tokens are the ones of these lines.
fn are_wanted(list: &[Token], lines: &str) -> bool {
    for (at, line) in lines.split('\n').enumerate() {
        match list.get(at) {
            Some(token) if *token == token_of(line) => {}
            _ => return false,
        }
    }
    list.len() == lines.split('\n').count()
}

/// Whether a text has the tokens of these lines.
fn has_tokens(alloc: Global, text: &[u8], lines: &str) -> bool {
    match tokens(alloc, text) {
        Ok(found) => are_wanted(found.list.as_slice(), lines),
        Err(_) => false,
    }
}

/// Texts, and a line for each of their tokens. The longest sign stands, a line marker is dropped, dropped words are no tokens, and columns
/// count bytes.
const TOKENS: &str = "a+++b`name 0 1 1 1
sign 1 3 1 2 8
sign 3 4 1 4 12
name 4 5 1 5
end 5 5 1 6~
# 1 \"a.c\"\nint x1;\n \t# $ '\n%:%: # ##`word 10 13 2 1 17
name 14 16 2 5
sign 16 17 2 7 32
sign 26 30 4 1 47
sign 31 32 4 6 46
sign 33 35 4 8 47
end 35 35 4 10~
__extension__ int f(void)\n __attribute__ \n# 2\n ((a(\")\"),b))x;`word 14 17 1 15 17
name 18 19 1 19
sign 19 20 1 20 2
word 20 24 1 21 31
sign 24 25 1 25 3
name 59 60 4 14
sign 60 61 4 15 32
end 61 61 4 16~
\"\u{e9}\"x u8'a'`text 0 4 1 1
name 4 5 1 5
name 6 8 1 7
character 8 11 1 9
end 11 11 1 12";

#[test]
fn each_text_has_its_tokens(rt: HostRuntime) {
    for row in TOKENS.split("~\n") {
        let (text, lines) = row.split_once('`').unwrap_or((row, ""));
        assert!(rt; has_tokens(rt.alloc(), text.as_bytes(), lines), "{row}");
    }
}

#[test]
fn the_longest_text_has_2_to_the_24_bytes(rt: HostRuntime) -> Result<(), Fail> {
    let mut text = vec![in rt.alloc(); b' '; 16777216]?;
    let end = "end 16777216 16777216 1 16777217";
    assert!(rt; has_tokens(rt.alloc(), text.as_slice(), end));
    text.push(b' ')?;
    assert!(rt; has_fault(rt.alloc(), text.as_slice(), LexFault::TooLong));
    Ok(())
}

// Scripts, apart by empty lines: what one shows, and then a step on each line, with the answer behind a grave accent. A place is a whole
// instance, an element or a member of one by its number, or a member of a member; a call has its word of input before its name.
pub(crate) const SCRIPTS: &str = "an odd word gives null and makes nothing
call 3 malloc 8 8`null
state 0`none
call 1 calloc 8 8`null
state 0`none
call 1 realloc null 8`null
state 0`none
call 5 realloc function 8`null
state 0`none

realloc keeps the elements that fit, unset ones too, gives the old type, and ends the old object
call 0 malloc 12`&0[0]
give 0 int`
put element.0.0 int 1`written
put element.0.2 int 3`written
call 0 realloc element.0.1 8`BadCall
state 0`live 12 typed unset
state 1`none
call 1 realloc element.0.1 8`null
state 0`live 12 typed unset
state 1`none
call 1 realloc element.0.0 8`null
state 0`live 12 typed unset
state 1`none
call 0 realloc element.0.0 8`&1[0]
state 0`ended 12 typed unset
state 1`live 8 typed unset
call 0 realloc element.0.0 8`BadCall
state 0`ended 12 typed unset
state 1`live 8 typed unset
elements 1 int 3`1 Unset OutOfRange
call 0 realloc element.1.0 14`&2[0]
elements 2 int 4`1 Unset Unset OutOfRange
call 0 free element.1.0`BadCall

the checks of a2, of a1, of types, of the number, of ranges; a refusal leaves all as it was
hold int[3] int 1 2 3`
hold char[4] char 97 98 99 0`
object int[3] zero`
stop 2`
call 0 malloc 8`&3[0]
call 0 memcpy null null 4`NullUse
state 3`live 8 untyped unset
elements 0 int 3`1 2 3
call 0 memcpy null function 4`Mismatch
state 3`live 8 untyped unset
elements 0 int 3`1 2 3
call 0 memcpy null element.2.0 4`DeadUse
state 3`live 8 untyped unset
elements 0 int 3`1 2 3
call 0 memcpy null element.3.0 4`Mismatch
state 3`live 8 untyped unset
elements 0 int 3`1 2 3
call 0 memcpy null element.0.0 4`NullUse
state 3`live 8 untyped unset
elements 0 int 3`1 2 3
call 0 memcpy function element.0.0 4`Mismatch
state 3`live 8 untyped unset
elements 0 int 3`1 2 3
call 0 memcpy element.2.0 element.0.0 4`DeadUse
state 3`live 8 untyped unset
elements 0 int 3`1 2 3
call 0 memcpy element.1.0 element.0.0 4`Mismatch
state 3`live 8 untyped unset
elements 0 int 3`1 2 3
call 0 memcpy element.3.0 element.0.0 6`Mismatch
state 3`live 8 untyped unset
elements 0 int 3`1 2 3
call 0 memcpy element.3.0 element.0.0 12`OutOfRange
state 3`live 8 untyped unset
elements 0 int 3`1 2 3
call 0 memcpy element.0.2 element.0.0 8`OutOfRange
state 3`live 8 untyped unset
elements 0 int 3`1 2 3
call 0 memcpy element.0.0 element.0.2 8`OutOfRange
state 3`live 8 untyped unset
elements 0 int 3`1 2 3
call 0 memcpy null null 0`null
state 3`live 8 untyped unset
elements 0 int 3`1 2 3

all is read before any is written
hold int[3] int 1 2 3`
call 0 memmove element.0.1 element.0.0 8`&0[1]
elements 0 int 3`1 1 2
call 0 memcpy element.0.0 element.0.1 8`&0[0]
elements 0 int 3`1 2 2

an object without a type gets that of the elements; pointers are told
object int[3] zero`
call 0 malloc 8`&1[0]
hold int[3] int 5`
call 0 memcpy element.1.0 element.2.0 8`&1[0]
state 1`live 8 typed unset
elements 1 int 3`5 Unset OutOfRange
object record zero`
object record unset`
put member.4.0 int 7`written
put member.4.1 pointer element.0.1`written
call 0 memcpy whole.3 whole.4 16`&3 &3.1:=&0[1]
get whole.3 record`.0=7 .1=&0[1]

an inactive member that is read is Mismatch; one that is written becomes active
object union zero`
object pointer zero`
call 0 memcpy whole.1 member.0.1 8`Mismatch
call 0 memcpy member.0.1 whole.1 8`&0.1
get member.0.0 int`Mismatch
get member.0.1 pointer`null

what no one wrote is unset, or zero and null under the mark; an allocated object without a type has no cell
object record unset`
object record zero`
call 0 malloc 8`&2[0]
get member.0.0 int`Unset
get member.1.0 int`0
get member.1.1 pointer`null
get whole.0 record`.0=unset .1=unset
get whole.1 record`.0=0 .1=null
get element.2.0 int`Mismatch
give 2 int`
get element.2.1 int`Unset
get element.2.2 int`OutOfRange

a bit-field of three bits keeps the low three, the highest as a sign; a character is one of -128 to 127
object bits unset`
object char[4] unset`
put member.0.0 int 9`written
get member.0.0 int`1
put member.0.0 int 4`written
get member.0.0 int`-4
put member.0.0 int 3`written
get member.0.0 int`3
put member.0.0 int -5`written
get member.0.0 int`3
put member.0.0 int 8`written
get member.0.0 int`0
put element.1.1 char 255`written
get element.1.1 char`-1
put element.1.1 char 128`written
get element.1.1 char`-128
put element.1.1 char -129`written
get element.1.1 char`127
put element.1.1 char 65`written
get element.1.1 char`65
get element.1.0 char`Unset

a write makes its member of a union the active one; a read under another one is Mismatch
object union zero`
get member.0.0 int`0
get member.0.1 pointer`Mismatch
put member.0.1 pointer null`written
get member.0.0 int`Mismatch
get member.0.1 pointer`null
put member.0.0 int 7`written
get member.0.0 int`7
get member.0.1 pointer`Mismatch
object union unset`
get member.1.0 int`Unset
get member.1.1 pointer`Mismatch

a member of a union without a scalar becomes the active one too, in a copy as well, and under the mark
object either zero`
object empty zero`
object either unset`
put member.0.0 int 5`written
put member.2.0 int 7`written
assign member.0.1 empty whole.1`written
get member.0.0 int`Mismatch
get member.0.1 empty`
get whole.0 either`.1=unset
assign member.0.1 empty whole.1`written
get member.0.0 int`Mismatch
assign whole.2 either whole.0`written
get member.2.0 int`Mismatch
get member.2.1 empty`
put member.0.0 int 5`written
get member.0.0 int`5
get member.0.1 empty`Mismatch
put member.2.0 int 7`written
assign member.0.1 empty member.2.1`Mismatch
assign member.0.1 empty whole.1`written
call 0 memcpy whole.2 whole.0 4`&2
get member.2.0 int`Mismatch
call 0 memset whole.0 0 4`&0
get member.0.0 int`0

memset puts an unsigned char into each cell, reduced to a bit-field's width; of a union and of wider cells no other number than 0
object fields unset`
object hollow unset`
object bytes unset`
object bits unset`
call 0 memset whole.0 5 2`&0
get member.0.0 char`-3
get member.0.1 char`5
call 0 memset whole.0 456 2`&0
get member.0.0 char`0
get member.0.1 char`-56
call 0 memset whole.0 -1 2`&0
get member.0.0 char`-1
get member.0.1 char`-1
call 0 memset whole.0 259 1`Mismatch
call 0 memset whole.0 259 4`OutOfRange
call 0 memset whole.1 5 2`Mismatch
call 0 memset whole.2 5 2`Mismatch
call 0 memset whole.3 5 8`Mismatch
call 0 memset whole.3 256 8`&3
get member.3.0 int`0

k->b=&x; g.d=&y; p=g.v.a; with k at the first member of g: the last read is Mismatch
object nested zero`
object int zero`
get nested.0.0.0 pointer`null
put nested.0.0.1 pointer whole.1`written
put member.0.1 pointer whole.1`written
get nested.0.0.1 pointer`&1
get nested.0.0.0 pointer`Mismatch
get whole.0 nested`.0.1=&1 .1=&1
get member.0.0 pointers`.1=&1

of the library's objects the third alone is an array of as many elements as its bytes hold, and here it has no bytes
library 2 int`
library 6 int`
get element.0.0 int`OutOfRange
get whole.0 int`Mismatch
get whole.1 int`0
get element.1.0 int`Mismatch

memory from outside that has its type is one element of it, whatever its size, and no call ends it
outside int`
outside record`
outside empty`
get element.0.0 int`0
put element.0.0 int 7`written
elements 0 int 2`7 OutOfRange
put element.0.1 int 7`OutOfRange
get whole.0 int`Mismatch
get element.1.0 record`.0=0 .1=null
get element.1.1 record`OutOfRange
get element.2.0 empty`
get element.2.1 empty`OutOfRange
call 0 memset element.0.0 0 8`OutOfRange
call 0 memset element.0.0 0 4`&0[0]
elements 0 int 2`0 OutOfRange
call 0 free element.0.0`BadCall
call 0 realloc element.0.0 8`BadCall
state 0`live 0 typed zero

strcpy and strcat write the zero too; a refusal leaves all as it was
hold char[4] char 104 105 0`
object char[6] unset`
object char[2] unset`
call 0 strcpy element.1.0 element.0.0`&1[0]
elements 1 char 4`104 105 0 Unset
call 0 strcpy element.2.0 element.0.0`OutOfRange
elements 2 char 2`Unset Unset
call 0 strcpy null element.2.0`Unset
call 0 strcat element.1.0 element.0.0`&1[0]
elements 1 char 6`104 105 104 105 0 Unset
call 0 strcat element.1.0 element.0.0`OutOfRange
call 0 strcpy element.1.1 element.1.2`&1[1]
elements 1 char 6`104 104 105 0 0 Unset

strncpy writes so many characters, zeros behind the text
hold char[4] char 104 105 0`
object char[6] unset`
call 0 strncpy null null 0`null
elements 1 char 6`Unset Unset Unset Unset Unset Unset
call 0 strncpy element.1.0 element.0.0 1`&1[0]
elements 1 char 6`104 Unset Unset Unset Unset Unset
call 0 strncpy element.1.1 element.0.0 4`&1[1]
elements 1 char 6`104 104 105 0 0 Unset
call 0 strncpy element.1.0 element.0.0 7`OutOfRange
elements 1 char 6`104 104 105 0 0 Unset
call 0 strncpy element.1.0 element.0.0 -1`OutOfRange
elements 1 char 6`104 104 105 0 0 Unset

a number is the word's low bits in the result's type, here int
call 7 memcmp null`7
call 4294967295 memcmp null`-1
call 7 printf null`7
call 4294967295 printf null`-1
call 7 fprintf null`7
call 4294967295 fprintf null`-1
call 7 puts null`7
call 4294967295 puts null`-1
call 7 putchar null`7
call 4294967295 putchar null`-1
call 7 fputs null`7
call 4294967295 fputs null`-1
call 7 fputc null`7
call 4294967295 fputc null`-1
call 7 fclose null`7
call 4294967295 fclose null`-1
call 7 fwrite null`7
call 4294967295 fwrite null`-1
call 7 fflush null`7
call 4294967295 fflush null`-1
call 7 atoi null`7
call 4294967295 atoi null`-1
call 0 fgetc null`-1
call 511 fgetc null`255
call 256 fgetc null`0
call 0 getchar null`-1
call 511 getchar null`255
call 256 getchar null`0

what ends the program, and what is kept for its end
call 0 atexit null`NullUse
call 0 atexit element.0.0`BadCall
call 0 atexit function`0 keeps function
call 0 exit 300` ends 300 later
call 0 exit -1` ends -1 later
call 0 exit 4294967297` ends 1 later
call 0 abort null` ends 134 at once
call 0 __assert_fail null` ends 134 at once
call 0 stdin null`Mismatch";

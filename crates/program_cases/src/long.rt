// Texts at the limits: as in `rows`, but that a text stands by its pieces, each of them and how often it stands there, apart by bars; `#` is
// how often it stands there up to here. They are blocks that nest, closed or not, also in a unit that a thread of its own reads; alignments,
// which are read as deep as memory goes; a unit and a script of one byte more than a text may have (a script is looked at when the units are
// linked); and as many objects as a table has room for, 512 words of each of 32,768 rows, and one more.
use crate::calls::{Case, OpenGate, is_answered};
use crate::tests::case_of;
use pta_base::OutOfMemory;
use std::alloc::Global;

const LONG: &str = "a.i`a.i`0`int main(void){|1|{|255|;|1|}|255|return 0;}|1`pta 1
end
`~
--workers 2 a.i b.i`a.i b.i`0`int main(void){|1|{|255|;|1|}|255|return 0;}^void f(void){}|1`pta 1
end
`~
a.i`a.i`6`int main(void){|1|{|256|;|1|}|256|return 0;}|1``a.i:1:272: too deep 257
~
a.i`a.i`6`int main(void){|1|{|256|;|1``a.i:1:272: too deep 257
~
a.i`a.i`3`int main(void){|1|{|255|;|1``a.i:1:272: malformed
~
a.i`a.i`3`_Alignas(|10000``a.i:1:90001: malformed
~
a.i`a.i`6` |1|                                |524288``a.i: too large text 16777217
~
--ask s a.i`s a.i`6`































|524288|
^int x,*p,*q,*r; int main(void){p=&x;return 0;}|1``s: too large text 16777217
~
a.i`a.i`0`int v0|1|,v#|32765|; int main(void){return 0;}|1`pta 1
end
`~
a.i`a.i`6`int v0|1|,v#|32766|; int main(void){return 0;}|1``too large rows 16777728
";

/// The piece once more, with a number in the place of each `#`.
fn push_piece(
    alloc: Global,
    text: &mut String,
    piece: &str,
    number: usize,
) -> Result<(), OutOfMemory> {
    for (at, part) in piece.split('#').enumerate() {
        if at > 0 {
            text.push_str(format!(in alloc; "{number}")?.as_str())?;
        }
        text.push_str(part)?;
    }
    Ok(())
}

/// The same piece so many times more, numbered from 1 on.
fn repeat(alloc: Global, text: &mut String, piece: &str, times: usize) -> Result<(), OutOfMemory> {
    for number in 0..times {
        push_piece(alloc, text, piece, number + 1)?;
    }
    Ok(())
}

/// The text of these pieces.
fn text_of(alloc: Global, pieces: &str) -> Result<String, OutOfMemory> {
    let mut text = String::new(alloc);
    let mut piece = "";
    for (at, word) in pieces.split('|').enumerate() {
        if at % 2 == 0 {
            piece = word;
        } else {
            repeat(alloc, &mut text, piece, word.parse().unwrap_or(0))?;
        }
    }
    Ok(text)
}

#[test]
fn texts_at_the_limits(rt: HostRuntime) -> Result<(), OutOfMemory> {
    for row in LONG.split("~\n") {
        let said = case_of(row, 0);
        let text = text_of(rt.alloc(), said.texts)?;
        let case = Case {
            texts: text.as_str(),
            ..said
        };
        let answered = is_answered(&rt, rt.alloc(), &case, &OpenGate)?;
        assert!(rt; answered, "{row}");
    }
    Ok(())
}

//! The words of a command line: what they ask for, and which are refused.
use command_line::{Command, WordsFault, parse_words};
use std::alloc::{AllocError, Global};

/// The words of a line, of which each stands behind a bar.
fn words_of(alloc: Global, line: &str) -> Result<Vec<String>, AllocError> {
    let mut words = Vec::new(alloc);
    for word in line.split('|').skip(1) {
        words.push(String::from_str(alloc, word)?)?;
    }
    Ok(words)
}

/// Whether a list has the words of a text, which stand apart by single spaces; none for the empty text.
fn are_words(list: &[&str], text: &str) -> bool {
    if text.is_empty() {
        return list.is_empty();
    }
    for (at, word) in text.split(' ').enumerate() {
        if list.get(at).copied() != Some(word) {
            return false;
        }
    }
    list.len() == text.split(' ').count()
}

/// Whether a command has what a text says of it: a name, and what it is.
fn has(command: &Command<'_>, said: &str) -> bool {
    let (name, value) = said.split_once(' ').unwrap_or((said, ""));
    match name {
        "units" => are_words(command.units.as_slice(), value),
        "entries" => are_words(command.entries.as_slice(), value),
        "workers" => Some(command.workers) == value.parse::<u32>().ok(),
        "ask" if value.is_empty() => command.ask.is_none(),
        "ask" => command.ask == Some(value),
        "generated" => command.generated == value.parse::<u32>().ok(),
        "steps" => command.steps == value.parse::<u32>().ok(),
        "json" => command.json == (value == "yes"),
        "effects" => command.effects == (value == "yes"),
        "stops" => command.stops == (value == "yes"),
        _ => false,
    }
}

/// Whether a line's words are taken, and ask for all that follows on further lines.
fn asks_for(alloc: Global, text: &str) -> Result<bool, AllocError> {
    let words = words_of(alloc, text.split('\n').next().unwrap_or(""))?;
    let Ok(command) = parse_words(alloc, words.as_slice()) else {
        return Ok(false);
    };
    for said in text.split('\n').skip(1) {
        if !has(&command, said) {
            return Ok(false);
        }
    }
    Ok(true)
}

/// Words, and what they ask for.
const ASKED: &str = "taken|b.i|--workers=007|dir/a-1_x.i
workers 7
units b.i dir/a-1_x.i
ask
json no

taken|a.i|--json|--workers|2|b.i
json yes
ask
units a.i b.i

taken|a.i|--ask|a.i
ask a.i
units a.i

taken|--gen=0000001000|--workers|2
generated 1000
workers 2
units

taken|--run=0001000000|a.i|words
steps 1000000
generated
units a.i words

taken|a.i|--entry=put,_get9,int,P|--json
entries put _get9 int P
json yes
units a.i

taken|a.i
entries

taken|--effects|--workers|2|a.i
effects yes
stops no
units a.i

taken|a.i|b.i|--stops
stops yes
effects no
units a.i b.i";

#[test]
fn asked(rt: HostRuntime) -> Result<(), AllocError> {
    for text in ASKED.split("\n\n") {
        let asked = asks_for(rt.alloc(), text)?;
        assert!(rt; asked, "{text}");
    }
    Ok(())
}

/// Whether a line's words are refused.
fn is_refused(alloc: Global, line: &str) -> Result<bool, AllocError> {
    let words = words_of(alloc, line)?;
    match parse_words(alloc, words.as_slice()) {
        Ok(_) => Ok(false),
        Err(WordsFault::Usage) => Ok(true),
        Err(WordsFault::OutOfMemory) => Err(AllocError),
    }
}

/// Words for units, scripts and JSON, and whether they are refused.
const WORDS: &str = "taken|--ask=s|--desk|a.i
refused|--desk|a.i
refused|--desk|--ask=s|--desk|a.i
refused|--desk|--gen|3
taken|--json|a.i
taken|a.i|--json
refused|--json|a.i|--json
refused|--json=true|a.i
refused|--json
refused|--jso|a.i
refused|--json|--ask|s|a.i
refused|--ask=s|a.i|--json
refused|--|--json|a.i
taken|--ask=s|a.i
refused|--ask|s
refused|--ask|-s|a.i
refused|--ask|s$|a.i
refused|--ask|s|a.i|--ask|s
refused|--as|s|a.i
refused
refused|-
refused|
refused|--help
refused|--workers|0|a.i
refused|--workers|65|a.i
refused|--workers|00000000001|a.i
refused|--workers|a.i
refused|a.i|--work|2
refused|--workers|2|a.i|--workers|2
refused|a.i|a.i
refused|a.i|b$.i
taken|a.i|--workers|64
taken|--|a.i";

/// Words for a generated program.
const GENERATED: &str = "taken|--gen|1
refused|--gen|0
refused|--gen|1001
refused|--gen|00000000003
refused|--gen|+3
refused|--gen|
refused|--gen
refused|--ge|3
refused|--gen|3|--gen|3
refused|--gen|3|a.i
refused|a.i|--gen|3
refused|--gen|3|--ask|s
refused|--json|--gen|3
taken|--gen|3|--";

/// Words for a run.
const RUNS: &str = "taken|--run|0|a.i
taken|a.i|--run|7|--workers|2
refused|--run|1000001|a.i
refused|--run|00000000001|a.i
refused|--run|+1|a.i
refused|--run|-1|a.i
refused|--run=|a.i
refused|a.i|--run
refused|--ru|1|a.i
refused|--run|1|a.i|--run|1
refused|--run|1
refused|--run|1|a.i|--ask|s
refused|--json|a.i|--run|1
refused|--run|1|--gen|3
refused|--run|1|words|words
refused|--|--run|1|a.i";

/// Words for what functions touch, and for where a run may stop.
const TOUCHED: &str = "taken|--effects|a.i
taken|--stops|a.i|--workers|64
refused|--effects
refused|--stops|a.i|--stops
refused|--effects=1|a.i
refused|--effect|a.i
refused|--stop|a.i
refused|--stops|--effects|a.i
refused|--json|--effects|a.i
refused|--stops|a.i|--json
refused|--effects|--ask|s|a.i
refused|--ask=s|a.i|--stops
refused|--effects|--gen|3
refused|--gen|3|--stops
refused|--run|1|a.i|--effects
refused|--|--stops|a.i";

/// Words that name the functions at which a program is entered.
const ENTERED: &str = "taken|--entry|f|a.i
taken|--entry|main|a.i|--run|3
taken|--ask|s|--entry|f,g|a.i
taken|--workers|2|--json|--entry=f|a.i
taken|--entry|f,F|a.i
refused|--entry|f|--entry|g|a.i
refused|--entry|f,f|a.i
refused|--entry|f,g,f|a.i
refused|--entry|a,,b|a.i
refused|--entry|,a|a.i
refused|--entry|a,|a.i
refused|--entry|,|a.i
refused|--entry||a.i
refused|--entry=|a.i
refused|--entry|a, b|a.i
refused|--entry|9f|a.i
refused|--entry|f,9|a.i
refused|--entry|f-g|a.i
refused|--entry|f$|a.i
refused|--entry|-f|a.i
refused|--entry|a.i
refused|--entry|f
refused|a.i|--entry
refused|--entr|f|a.i
refused|--entry|main|--gen|1
refused|--gen=1|--entry=main
refused|--entry|f|--effects|a.i
refused|--stops|--entry|f|a.i
refused|--entry|f|--run|1|--json|a.i
refused|--|--entry|f|a.i";

#[test]
fn refused(rt: HostRuntime) -> Result<(), AllocError> {
    for rows in [WORDS, GENERATED, RUNS, TOUCHED, ENTERED] {
        for line in rows.split('\n') {
            let refused = is_refused(rt.alloc(), line)?;
            assert!(rt; refused == line.starts_with("refused"), "{line}");
        }
    }
    Ok(())
}

/// 64 names.
const MOST: &str = "f0,f1,f2,f3,f4,f5,f6,f7,f8,f9,f10,f11,f12,f13,f14,f15,f16,f17,f18,f19,f20,f21,\
    f22,f23,f24,f25,f26,f27,f28,f29,f30,f31,f32,f33,f34,f35,f36,f37,f38,f39,f40,f41,f42,f43,\
    f44,f45,f46,f47,f48,f49,f50,f51,f52,f53,f54,f55,f56,f57,f58,f59,f60,f61,f62,f63";

/// A line with a list of names.
fn entering(alloc: Global, names: &str, more: &str) -> Result<String, AllocError> {
    let mut line = String::from_str(alloc, "|--entry|")?;
    line.push_str(names)?;
    line.push_str(more)?;
    line.push_str("|a.i")?;
    Ok(line)
}

#[test]
fn as_many_entries_as_may_be(rt: HostRuntime) -> Result<(), AllocError> {
    let most = entering(rt.alloc(), MOST, "")?;
    let many = entering(rt.alloc(), MOST, ",f64")?;
    assert!(rt; !is_refused(rt.alloc(), most.as_str())?);
    assert!(rt; is_refused(rt.alloc(), many.as_str())?);
    Ok(())
}

// Functions and objects of the library by their names.
use crate::fields::{number, sides, word};
use lib_summaries::summary;

// Names, with their numbers and shapes.
const SUMMARIES: &str = "malloc => 0 i>p
memmove => 5 ppi>p
qsort => 15 piif>v
atexit => 24 f>i
__assert_fail => 54 ppip>v
stderr => 57 p
strtod => none
 => none
mallo => none";

// Whether the name of a row has the row's number and shape, or isn't known.
fn is_known(row: &str) -> bool {
    let (name, wanted) = sides(row);
    match summary(name) {
        Some(found) => found.number == number(wanted, 0) && found.shape == word(wanted, 1),
        None => wanted == "none",
    }
}

#[test]
fn summaries_by_name(rt: HostRuntime) {
    for row in SUMMARIES.split('\n') {
        assert!(rt; is_known(row), "{row}");
    }
}

// The library functions and objects that a program may name.

ghost use Rattle.std.specs.Prelude.{◌≡◌, ◌<◌, ◌^◌, MatchOption, Some, None, map, length};
ghost use Rattle.std.specs.Option.{option_map};
ghost use Rattle.lib_summaries.specs.Table.{find_from, row, summary_of, name_among, name_of, effects_among, effects_of};
ghost use Rattle.lib_summaries.specs.Shown.{shown};

use crate::row::Summary;
use pta_base::Effect;

/// One name of the table.
#[derive(Clone, Copy)]
struct Row {
    name: &'static str,
    shape: &'static str,
    effects: &'static [Effect],
}

static ROWS: [Row; 58] = [
    Row {
        name: "malloc",
        shape: "i>p",
        effects: &[Effect::GivesNew],
    },
    Row {
        name: "calloc",
        shape: "ii>p",
        effects: &[Effect::GivesNew],
    },
    Row {
        name: "realloc",
        shape: "pi>p",
        effects: &[Effect::GivesNew, Effect::Copies(0, 1)],
    },
    Row {
        name: "free",
        shape: "p>v",
        effects: &[Effect::Nothing],
    },
    Row {
        name: "memcpy",
        shape: "ppi>p",
        effects: &[Effect::GivesArgument(1), Effect::Copies(1, 2)],
    },
    Row {
        name: "memmove",
        shape: "ppi>p",
        effects: &[Effect::GivesArgument(1), Effect::Copies(1, 2)],
    },
    Row {
        name: "memset",
        shape: "pii>p",
        effects: &[Effect::GivesArgument(1)],
    },
    Row {
        name: "strcpy",
        shape: "pp>p",
        effects: &[Effect::GivesArgument(1)],
    },
    Row {
        name: "strcat",
        shape: "pp>p",
        effects: &[Effect::GivesArgument(1)],
    },
    Row {
        name: "strncpy",
        shape: "ppi>p",
        effects: &[Effect::GivesArgument(1)],
    },
    Row {
        name: "strchr",
        shape: "pi>p",
        effects: &[Effect::GivesArgument(1)],
    },
    Row {
        name: "strrchr",
        shape: "pi>p",
        effects: &[Effect::GivesArgument(1)],
    },
    Row {
        name: "strstr",
        shape: "pp>p",
        effects: &[Effect::GivesArgument(1)],
    },
    Row {
        name: "memchr",
        shape: "pii>p",
        effects: &[Effect::GivesArgument(1)],
    },
    Row {
        name: "strtol",
        shape: "ppi>i",
        effects: &[Effect::StoresInto(2, 1)],
    },
    Row {
        name: "qsort",
        shape: "piif>v",
        effects: &[Effect::CallsBack(4, Some((1, 1)))],
    },
    Row {
        name: "bsearch",
        shape: "ppiif>p",
        effects: &[Effect::CallsBack(5, Some((1, 2))), Effect::GivesArgument(2)],
    },
    Row {
        name: "strlen",
        shape: "p>i",
        effects: &[Effect::Nothing],
    },
    Row {
        name: "strcmp",
        shape: "pp>i",
        effects: &[Effect::Nothing],
    },
    Row {
        name: "strncmp",
        shape: "ppi>i",
        effects: &[Effect::Nothing],
    },
    Row {
        name: "memcmp",
        shape: "ppi>i",
        effects: &[Effect::Nothing],
    },
    Row {
        name: "strdup",
        shape: "p>p",
        effects: &[Effect::GivesNew],
    },
    Row {
        name: "getenv",
        shape: "p>p",
        effects: &[Effect::GivesObject(0)],
    },
    Row {
        name: "strerror",
        shape: "i>p",
        effects: &[Effect::GivesObject(1)],
    },
    Row {
        name: "atexit",
        shape: "f>i",
        effects: &[Effect::CallsBack(1, None)],
    },
    Row {
        name: "exit",
        shape: "i>v",
        effects: &[Effect::Nothing],
    },
    Row {
        name: "abort",
        shape: ">v",
        effects: &[Effect::Nothing],
    },
    Row {
        name: "printf",
        shape: "p.>i",
        effects: &[Effect::Nothing],
    },
    Row {
        name: "fprintf",
        shape: "pp.>i",
        effects: &[Effect::Nothing],
    },
    Row {
        name: "sprintf",
        shape: "pp.>i",
        effects: &[Effect::Nothing],
    },
    Row {
        name: "snprintf",
        shape: "pip.>i",
        effects: &[Effect::Nothing],
    },
    Row {
        name: "puts",
        shape: "p>i",
        effects: &[Effect::Nothing],
    },
    Row {
        name: "putchar",
        shape: "i>i",
        effects: &[Effect::Nothing],
    },
    Row {
        name: "fputs",
        shape: "pp>i",
        effects: &[Effect::Nothing],
    },
    Row {
        name: "fputc",
        shape: "ip>i",
        effects: &[Effect::Nothing],
    },
    Row {
        name: "fopen",
        shape: "pp>p",
        effects: &[Effect::GivesObject(2)],
    },
    Row {
        name: "fclose",
        shape: "p>i",
        effects: &[Effect::Nothing],
    },
    Row {
        name: "fgets",
        shape: "pip>p",
        effects: &[Effect::GivesArgument(1)],
    },
    Row {
        name: "fgetc",
        shape: "p>i",
        effects: &[Effect::Nothing],
    },
    Row {
        name: "getchar",
        shape: ">i",
        effects: &[Effect::Nothing],
    },
    Row {
        name: "fread",
        shape: "piip>i",
        effects: &[Effect::Nothing],
    },
    Row {
        name: "fwrite",
        shape: "piip>i",
        effects: &[Effect::Nothing],
    },
    Row {
        name: "fflush",
        shape: "p>i",
        effects: &[Effect::Nothing],
    },
    Row {
        name: "isalpha",
        shape: "i>i",
        effects: &[Effect::Nothing],
    },
    Row {
        name: "isdigit",
        shape: "i>i",
        effects: &[Effect::Nothing],
    },
    Row {
        name: "isalnum",
        shape: "i>i",
        effects: &[Effect::Nothing],
    },
    Row {
        name: "isspace",
        shape: "i>i",
        effects: &[Effect::Nothing],
    },
    Row {
        name: "isupper",
        shape: "i>i",
        effects: &[Effect::Nothing],
    },
    Row {
        name: "islower",
        shape: "i>i",
        effects: &[Effect::Nothing],
    },
    Row {
        name: "toupper",
        shape: "i>i",
        effects: &[Effect::Nothing],
    },
    Row {
        name: "tolower",
        shape: "i>i",
        effects: &[Effect::Nothing],
    },
    Row {
        name: "atoi",
        shape: "p>i",
        effects: &[Effect::Nothing],
    },
    Row {
        name: "__errno_location",
        shape: ">p",
        effects: &[Effect::GivesObject(6)],
    },
    Row {
        name: "__ctype_b_loc",
        shape: ">p",
        effects: &[Effect::GivesObject(7)],
    },
    Row {
        name: "__assert_fail",
        shape: "ppip>v",
        effects: &[Effect::Nothing],
    },
    Row {
        name: "stdin",
        shape: "p",
        effects: &[],
    },
    Row {
        name: "stdout",
        shape: "p",
        effects: &[],
    },
    Row {
        name: "stderr",
        shape: "p",
        effects: &[],
    },
];

/// The summary of a library name; None exactly where the table hasn't the name. It takes no memory.
pub fn summary(name: &str) -> Option<Summary>
    ensures { MatchOption result (summary_of name.now ≡ None) (λ s.
        summary_of name.now ≡ Some (record { number = s.number; row = row name.now s.shape.now s.effects.now })) }
{
    find_in(&ROWS, name)
}

/// The name of that number; None exactly past the table. It takes no memory.
pub fn name_at(number: u32) -> Option<&'static str>
    ensures { option_map (λ name. name.now) result ≡ name_of number }
{
    name_in(&ROWS, number as usize)
}

// The name of the row in that position.
fn name_in(rows: &'static [Row], number: usize) -> Option<&'static str>
    ensures { option_map (λ name. name.now) result ≡ name_among (map shown rows.now) number }
{
    if number < rows.len() {
        Some(rows[number].name)
    } else {
        None
    }
}

// The first row with that name.
fn find_in(rows: &'static [Row], name: &str) -> Option<Summary>
    requires { length rows.now < 2 ^ 32 }
    ensures { let table = map shown rows.now in
        MatchOption result (find_from 0 table name.now ≡ None) (λ s.
        find_from 0 table name.now
        ≡ Some (record { number = s.number; row = row name.now s.shape.now s.effects.now })) }
{
    for (number, row) in rows.iter().enumerate() {
        if row.name == name {
            return Some(Summary {
                number: number as u32,
                shape: row.shape,
                effects: row.effects,
            });
        }
    }
    None
}

/// What a call of the library function of that number does to sets; the empty list past the table. It takes no memory.
pub fn effects(number: u32) -> &'static [Effect]
    ensures { result.now ≡ effects_of number }
{
    effects_in(&ROWS, number as usize)
}

// The effects of one row.
fn effects_in(rows: &'static [Row], number: usize) -> &'static [Effect]
    ensures { result.now ≡ effects_among (map shown rows.now) number }
{
    if number < rows.len() {
        rows[number].effects
    } else {
        &[]
    }
}

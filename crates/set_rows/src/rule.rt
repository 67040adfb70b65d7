//! The rule of the table, and the kinds of step.
ghost use Rattle.set_rows.specs.Rule.{Kept};
ghost use Rattle.set_rows.specs.Views.{fresh, looked_at, added_at, shut_at, read_at, drew_at, half_kept, half_given, met, nobody};

use crate::view::View;
use atomic_table::{Join, Play, Split, TableRule};
use sol_model::System;

/// The rule that every step on the words keeps.
pub struct Law;

impl TableRule<(), View, System> for Law {
    ghost holds = { Kept };

    ghost first = { fresh };
}

/// A load of a word of a row.
pub struct Looks;

impl Play<(), View> for Looks {
    ghost then = { looked_at };
}

/// A `fetch_or` on a word of a row.
pub struct Adds;

impl Play<(), View> for Adds {
    ghost then = { added_at };
}

/// The `fetch_or` on the closing word.
pub struct Shuts;

impl Play<(), View> for Shuts {
    ghost then = { shut_at };
}

/// A load of the closing word.
pub struct Reads;

impl Play<(), View> for Reads {
    ghost then = { read_at };
}

/// A `fetch_add` on the ticket word.
pub struct Draws;

impl Play<(), View> for Draws {
    ghost then = { drew_at };
}

/// A seat is split.
pub struct Halves;

impl Split<View> for Halves {
    ghost left = { half_kept };

    ghost right = { half_given };
}

/// Two seats are joined.
pub struct Meets;

impl Join<View> for Meets {
    ghost both = { met };

    ghost spent = { nobody };
}

//! The law: a function that does nothing, whose contract it is.
ghost use Rattle.limit_laws.specs.Limits.{UnitsAreLimited};

/// In a unit that is cut into tokens and read, each type that the rows before a node make is within the limits (C11 5.2.4.1) of the world
/// around that node, so long as those rows fit: it has no size, or one below 2^63 and at most 2^24 nodes, and so has each type of which
/// it is made. Declarators are asked for that where they are outermost (6.7.6), structures and unions where they are completed (6.7.2.1);
/// a typedef name has the type of its declarator, since the words of its declaration refuse an initialiser (6.7.9).
pub fn units_are_limited()
    ensures { UnitsAreLimited }
{}

//! The laws: functions that do nothing, whose contracts they are.
ghost use Rattle.valid_unit_laws.specs.body_node_laws.parts_initialise.Initialise.{TopsInitialise, AutomaticsInitialise, NamesInitialise};
ghost use Rattle.valid_unit_laws.specs.body_node_laws.parts_initialise.Initialise.{UnitsInitialiseOnce};

/// An initialiser that stands under no other node is the body of its object (C11 6.7.9).
pub fn tops_initialise()
    ensures { TopsInitialise }
{}

/// The initialiser of an automatic object with a name is that object's body, wherever it stands: it stands once (C11 6.7.9, 6.8).
pub fn automatics_initialise()
    ensures { AutomaticsInitialise }
{}

/// An initialiser of an object with a name is that object's body: it stands once, and under no other node if the object isn't automatic
/// (C11 6.7.9).
pub fn names_initialise()
    ensures { NamesInitialise }
{}

/// In a unit that is made of a parsed tree's senses each initialiser, that of an object with a name or of a compound literal, is the body
/// of its entity (C11 6.5.2.5, 6.7.9).
pub fn units_initialise_once()
    ensures { UnitsInitialiseOnce }
{}

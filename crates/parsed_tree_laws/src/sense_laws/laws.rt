//! Laws of sound trees: these functions do nothing, and their contracts are the laws.
ghost use Rattle.parsed_tree_laws.specs.sense_laws.Asked.{AskedSensesSound};
ghost use Rattle.parsed_tree_laws.specs.sense_laws.Laws.{ConversionsSound, ExpressionsSound, InitialisersSound, OperatorsSound, RowsSound};
ghost use Rattle.parsed_tree_laws.specs.sense_laws.Laws.{SensesSound, SoundKept, SoundRows, SoundRowsUnder, SoundStands, StatementsSound};

/// Where all trees of a unit are sound, the nodes of which constants are made stand in their rows.
pub fn sound_rows()
    ensures { SoundRows }
{}

/// What conversions make of sound values is sound.
pub fn conversions_sound()
    ensures { ConversionsSound }
{}

/// What operators make of sound values is sound.
pub fn operators_sound()
    ensures { OperatorsSound }
{}

/// What the rows of expressions give over sound senses is sound.
pub fn expressions_sound()
    ensures { ExpressionsSound }
{}

/// The nodes under one whose tree is sound stand in the rows of their kinds.
pub fn sound_stands()
    ensures { SoundStands }
{}

/// What the rows of statements give over sound senses is a sound statement.
pub fn statements_sound()
    ensures { StatementsSound }
{}

/// What the rows of initialisers and compound literals give over sound senses is sound, where the values fit.
pub fn initialisers_sound()
    ensures { InitialisersSound }
{}

/// What the row of any node gives over sound senses is sound.
pub fn every_row_sound()
    ensures { RowsSound }
{}

/// What is sound stays sound while more structures and unions are completed.
pub fn sound_kept()
    ensures { SoundKept }
{}

/// All senses of a tree are sound.
pub fn senses_sound()
    ensures { SensesSound }
{}

/// The nodes of constants under one whose tree is sound stand in their rows.
pub fn sound_rows_under()
    ensures { SoundRowsUnder }
{}

/// All senses of a tree are sound, where names fit that a primary begins with, and initialisers their own objects.
pub fn asked_senses_sound()
    ensures { AskedSensesSound }
{}

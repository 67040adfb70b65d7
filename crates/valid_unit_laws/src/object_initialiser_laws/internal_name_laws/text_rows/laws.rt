//! That the nodes of a unit which is made of a text's tree stand in their rows.
ghost use Rattle.valid_unit_laws.specs.object_initialiser_laws.internal_name_laws.text_rows.Linked.{RowsOfLinkedTexts};
ghost use Rattle.valid_unit_laws.specs.object_initialiser_laws.internal_name_laws.text_rows.Texts.{RowsOfTexts};

/// In a unit that is made of the walk over a text's tree each node stands in the row of its kind (C11 6.5, 6.8), where the types of names
/// agree with those of their entities, and an object that is initialised has the type that its declarator gives it.
pub fn rows_of_texts()
    ensures { RowsOfTexts }
{}

/// So they do where internal names fit, open arrays have their own initialisers, and internal objects the types of their declarations.
pub fn rows_of_linked_texts()
    ensures { RowsOfLinkedTexts }
{}

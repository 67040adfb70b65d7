//! That the nodes of a unit stand in their rows, where internal names fit.
ghost use Rattle.valid_unit_laws.specs.object_initialiser_laws.internal_name_laws.initialised_rows.Rows.{RowsOfInitialisedTexts};

/// In a unit that is made of the walk over a text's tree each node stands in the row of its kind (C11 6.5, 6.8), where internal names,
/// and open arrays within their own initialiser whose length an earlier declaration has, mean the type of their entities, and an internal
/// object that is initialised has the type that its declarations give together. That an open array's initialiser is the one of its name
/// is proved.
pub fn rows_of_initialised_texts()
    ensures { RowsOfInitialisedTexts }
{}

//! That a name can be read back into its parts.
ghost use Rattle.linked_laws.specs.location_laws.name_shapes.Shapes.{ReadBack};

/// The parts of an object's name, and what stands behind it, can be read back from the text.
pub fn read_back()
    ensures { ReadBack }
{}

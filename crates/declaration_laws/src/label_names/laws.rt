//! The law: a function that does nothing, whose contract it is.
ghost use Rattle.declaration_laws.specs.label_names.Labels.{LabelsAreBound};

/// In a unit whose names are bound no two labels of a function's body are spelled alike, and each `goto` there has its label there
/// (C11 6.2.3, 6.8.1, 6.8.6.1).
pub fn labels_bound()
    ensures { LabelsAreBound }
{}

//! The laws: functions that do nothing, whose contracts they are.
ghost use Rattle.twin_report_laws.specs.outcome_laws.used_names.Uses.{UsesAreParts, RightUsesOnce};

/// A leaf that name resolution pairs with a declaration is a part of a primary, of a specifier of a type, a structure, a union or an
/// enumeration, of specifiers, or of the rest of a declaration (C11 6.2.1, 6.5.1, 6.7.2).
pub fn uses_are_parts()
    ensures { UsesAreParts }
{}

/// The nodes of a right unit that name objects and functions stand in that unit, and those at one place name one (C11 6.5.1).
pub fn right_uses_once()
    ensures { RightUsesOnce }
{}

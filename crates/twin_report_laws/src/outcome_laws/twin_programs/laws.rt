//! That programs which are linked from units that are alike are one, but for numbers (C11 5.1.1.2, 6.2.2, 6.2.7).
ghost use Rattle.twin_report_laws.specs.outcome_laws.twin_programs.One.{TwinPrograms};

/// Two programs that are linked from units which are alike one by one, with entries of the same names, are one, but for numbers, where each
/// node of the units is a body or stands under one: each node stands in the other one as often, with the same kind, place, type and
/// children, each entity with the same name, place, linkage, storage, type, owner, body and first use, each tag with the same members, and
/// the entries are the same in the same order.
pub fn twin_programs()
    ensures { TwinPrograms }
{}

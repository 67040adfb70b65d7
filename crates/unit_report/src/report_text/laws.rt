// Laws of reports: these functions do nothing, and their contracts are the laws.
ghost use Rattle.unit_report.specs.report_text.Laws.{MembersListed, TargetsListed, SameReport};

/// The members that the line of a set names are those that its row has.
pub fn members_listed()
    ensures { MembersListed }
{}

/// The targets that the line of a call names are the functions that the call may call.
pub fn targets_listed()
    ensures { TargetsListed }
{}

/// Families with the same facts have the same report.
pub fn same_report()
    ensures { SameReport }
{}

//! The laws: these functions do nothing, and their contracts are the laws.
ghost use Rattle.limit_laws.specs.struct_laws.Laws.{ListsAreMade, TagsStayOpen};
ghost use Rattle.limit_laws.specs.struct_laws.Untaken.{OnlyUntaken};
ghost use Rattle.limit_laws.specs.struct_laws.Words.{NeverUnbuilt, NoOtherKeyword, UntakenAlone};

/// Where a specifier with a list of members is the first of its tag with one (C11 6.7.2.3p1), its tag has no members before it.
pub fn tags_stay_open()
    ensures { TagsStayOpen }
{}

/// A specifier's list stands for members wherever the rows before the specifier fit (C11 6.7.2.1).
pub fn lists_are_made()
    ensures { ListsAreMade }
{}

/// A specifier whose row isn't built, where the rows before it fit, has another keyword than the first one of its tag, or has members that
/// may not stand in their places.
pub fn only_untaken()
    ensures { OnlyUntaken }
{}

/// A specifier has the keyword of the first one of its tag, where the rows before it fit (C11 6.7.2.3p2).
pub fn no_other_keyword()
    ensures { NoOtherKeyword }
{}

/// A specifier of a parsed unit whose row isn't built, where the rows before it fit, has members that may not stand in their places.
pub fn untaken_alone()
    ensures { UntakenAlone }
{}

/// Where the rows before a specifier of a parsed unit fit, its row is built (C11 6.7.2.1): its keyword is that of its tag, and its members
/// may stand in their places.
pub fn never_unbuilt()
    ensures { NeverUnbuilt }
{}

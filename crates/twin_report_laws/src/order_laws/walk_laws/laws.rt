//! A definition that goes along a list is exactly the list, text or number that a relation asks for.

ghost use Rattle.twin_report_laws.specs.order_laws.walk_laws.Shown.{CallsNumbered, TagsCompleted, ItemsLast};
ghost use Rattle.twin_report_laws.specs.order_laws.walk_laws.Texts.{TextsRead, TextsCompared};

/// The numbers of the call nodes below a number (C11 6.5.2.2) are exactly those at which a call stands, and they rise.
pub fn calls_numbered()
    ensures { CallsNumbered }
{}

/// The completed structures and unions of a unit (C11 6.7.2.1p8) are what the nodes that end a member list complete, in the order of
/// these nodes.
pub fn tags_completed()
    ensures { TagsCompleted }
{}

/// The items of an initialiser that last are exactly those that no later item takes away, in their order (C11 6.7.9p19).
pub fn items_last()
    ensures { ItemsLast }
{}

/// A text that is read is what stands before the first zero; the reason of the first character that can't be read; or so many characters,
/// and then what there is (C11 7.1.1p1).
pub fn texts_read()
    ensures { TextsRead }
{}

/// A comparison is what the first place decides that decides anything, and else what there is (C11 7.24.4.2, 7.24.4.4).
pub fn texts_compared()
    ensures { TextsCompared }
{}

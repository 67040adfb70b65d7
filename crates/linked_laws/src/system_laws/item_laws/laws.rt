//! That initialisers put values at locations of their objects (C11 6.7.9).
ghost use Rattle.linked_laws.specs.system_laws.item_laws.Items.{ItemsFit, SpotsFit};

/// What the initialisers of objects that have their places demand is in range.
pub fn items_fit()
    ensures { ItemsFit }
{}

/// The initialisers of objects that have their places put values with nodes at locations.
pub fn spots_fit()
    ensures { SpotsFit }
{}

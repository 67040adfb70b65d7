//! What the names of a unit mean: their linkage, entities, storage and types (C11 6.2.1 to 6.2.4, 6.2.7).
#![tactic(auto)]

mod alike;
mod earlier;
mod kept;
mod linkage;
mod meanings;
mod names;
mod statics;
mod storage;
mod thinned;
mod types;

pub use earlier::{internal_thinned, scope_thinned, typing_list};
pub use kept::{Linkages, internal_kept, same_internal_kept};
pub use linkage::{entity_of, is_internal, is_internal_after, linkage_of};
pub use meanings::{Meaning, meaning_at};
pub use names::{
    Names, before_in_scope, declared_at, declares_function, is_linked, is_typedef, names_of_unit,
};
pub use statics::{StaticSeen, nothing_seen};
pub use storage::{is_automatic, is_static_object, storage_of};

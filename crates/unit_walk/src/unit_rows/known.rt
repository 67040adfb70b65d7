// What is known of a unit before its rows.
use c_meanings::Names;
use c_scope::Bound;
use c_tags::tag_numbers::Numbered;
use name_chains::symbol_lists::SymbolLists;
use statement_rows::NameKinds;

/// What is known of a unit before its rows: its syntax with the numbers of tags, how its names are bound, the declarations that are seen
/// at each name and those of each symbol, and what each declared name is.
#[derive(Clone, Copy)]
pub struct Known<'a> {
    pub numbered: &'a Numbered<'a>,
    pub bound: &'a Bound,
    pub names: &'a Names,
    pub lists: &'a SymbolLists,
    pub kinds: &'a NameKinds,
}

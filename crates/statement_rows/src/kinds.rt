// What name resolution says of declared names, by leaf.
ghost use Rattle.std.specs.Prelude.{◌≡◌, ◌<◌, ◌&&◌, ℕ, List, false, get_or, not, length, replicate, All, IfOk};
ghost use Rattle.c_senses.specs.Tree.{Source};
ghost use Rattle.c_senses.specs.Names as names;
ghost use Rattle.statement_rows.specs.Kinds.{AreKinds, Flagged};

use c_scope::{Declared, Kind};
use std::alloc::{AllocError, Global};

/// What name resolution says of declared names (C11 6.2.3, 6.7), by leaf: which are typedef names, and which declare functions.
#[derive(Drop)]
pub struct NameKinds {
    pub typedefs: Vec<bool>,
    pub functions: Vec<bool>,
}

// Whether a declaration declares a typedef name.
fn names_type(declared: &Declared) -> bool
    ensures { result ≡ names.names_type declared.now }
{
    match declared.kind {
        Kind::Typedef => true,
        Kind::Linked | Kind::Plain => false,
    }
}

// Whether a declaration declares a function.
fn names_function(declared: &Declared) -> bool
    ensures { result ≡ (declared.now.is_function && not (names.names_type declared.now)) }
{
    declared.is_function && !names_type(declared)
}

// The flag of a leaf; a leaf past the list has none.
fn flag_of(flags: &[bool], leaf: u32) -> bool
    ensures { result ≡ get_or flags.now leaf false }
{
    match flags.get(leaf as usize) {
        Some(flag) => *flag,
        None => false,
    }
}

impl NameKinds {
    /// What the declarations of a tree of `count` nodes say of its leaves; of several declarations by one leaf the first counts.
    /// Only memory may want.
    pub fn of(alloc: Global, declared: &[Declared], count: usize) -> Result<NameKinds, AllocError>
        requires { All (λ d. d.node < count) declared.now }
        ensures { (s : Source) → s.declared.ordinary ≡ declared.now → IfOk result (AreKinds s) }
    {
        let mut typedefs = vec![in alloc; false; count]?;
        let mut functions = vec![in alloc; false; count]?;
        for index in 0..declared.len() {
            let last = &declared[declared.len() - 1 - index];
            typedefs[last.node as usize] = names_type(last);
            functions[last.node as usize] = names_function(last);
        }
        Ok(NameKinds {
            typedefs,
            functions,
        })
    }

    /// Whether a leaf declares a typedef name (C11 6.7.8).
    pub fn is_typedef(&self, leaf: u32) -> bool
        ensures { result ≡ get_or self.now.typedefs.items leaf false }
    {
        flag_of(self.typedefs.as_slice(), leaf)
    }

    /// Whether a leaf declares a function.
    pub fn is_function(&self, leaf: u32) -> bool
        ensures { result ≡ get_or self.now.functions.items leaf false }
    {
        flag_of(self.functions.as_slice(), leaf)
    }
}

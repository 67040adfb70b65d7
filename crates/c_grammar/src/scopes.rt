//! The scopes of names while a unit is read.
ghost use Rattle.c_grammar.specs.Current.{Indexed};
ghost use Rattle.c_grammar.specs.Log.{seen, seen_all, Forgets};
ghost use Rattle.c_grammar.specs.Names as names;
ghost use Rattle.c_grammar.specs.Names.{Names};
ghost use Rattle.std.specs.Prelude.{◌≡◌, ◌<◌, nat_lt, length, IfOk, OnOk, OnErr};

use crate::current::{Current, copied, meaning, meant, numbered, restore, set};
use pta_base::OutOfMemory;
use std::alloc::Global;
use std::marker::Model;

/// A declared name, whether it is a typedef name, and what the name meant before.
#[derive(Drop)]
pub struct Declared {
    name: Vec<u8>,
    is_type: bool,
    before: Option<bool>,
}

impl Declared {
    /// The name.
    pub(crate) fn name(&self) -> &[u8]
        ensures { result.now ≡ (seen self.now).0 }
    {
        &self.name
    }

    /// Whether it is a typedef name.
    pub(crate) fn is_type(&self) -> bool
        ensures { result ≡ (seen self.now).1 }
    {
        self.is_type
    }
}

/// The open scopes with the names that they declare (C11 6.2.1). The file's scope is always open.
#[derive(Drop)]
pub struct Scopes {
    enclosing: Vec<Vec<Declared>>,
    innermost: Vec<Declared>,
    current: Current,
    alloc: Global,
}

impl Model for Scopes {
    ghost use Rattle.c_grammar.specs.Names.{Names};

    ghost Value = { Names };

    ghost use Rattle.c_grammar.specs.Log.{seen, seen_all, seen_scope, Kept};
    ghost use Rattle.std.specs.Prelude.{map};

    ghost view = { λ s. record { enclosing = map seen_scope s.enclosing.items; innermost = seen_all s.innermost.items } };

    ghost invariant = { λ s. Kept s.enclosing.items s.innermost.items s.current };
}

/// Gives all names of a scope, from the last one on, the meanings that they had before.
fn forget(scope: &[Declared], current: &mut Current)
    requires { Indexed current.old }
    ensures indexed { Indexed current.new }
    ensures forgets { Forgets scope.now current.old current.new }
{
    let mut rest = scope.len();
    while rest > 0 {
        rest -= 1;
        let declared = &scope[rest];
        restore(current, &declared.name, declared.before);
    }
}

impl Scopes {
    /// Only the file's scope is open, and it declares nothing.
    pub fn new(alloc: Global) -> Scopes
        ensures { result ≡ names.no_names }
    {
        Scopes {
            enclosing: Vec::new(alloc),
            innermost: Vec::new(alloc),
            current: Current::new(alloc),
            alloc,
        }
    }

    /// Opens a scope. Where memory runs out, the scopes stay as they were.
    pub fn enter(&mut self) -> Result<(), OutOfMemory>
        ensures ok { OnOk result (self.new ≡ names.entered self.old) }
        ensures err { OnErr result (self.new ≡ self.old) }
    {
        self.enclosing.reserve(1)?;
        let scope = std::mem::replace(&mut self.innermost, Vec::new(self.alloc));
        self.enclosing.push(scope)?;
        Ok(())
    }

    /// Whether a scope is open within the file's.
    pub fn is_nested(&self) -> bool
        ensures { result ≡ nat_lt 0 (length self.now.enclosing) }
    {
        !self.enclosing.is_empty()
    }

    /// Closes the innermost scope, and hands out its declarations in their order. Where the file's scope alone is open, it stays
    /// open, and there are none.
    pub fn leave(&mut self) -> Vec<Declared>
        ensures scopes { self.new ≡ names.left self.old }
        ensures closed { seen_all result.items ≡ names.closing self.old }
    {
        let Some(scope) = self.enclosing.pop() else {
            return Vec::new(self.alloc);
        };
        forget(&self.innermost, &mut self.current);
        std::mem::replace(&mut self.innermost, scope)
    }

    /// Declares a name in the innermost scope, as a typedef name or as another one. Where memory runs out, the scopes stay as
    /// they were.
    pub fn declare(&mut self, name: &[u8], is_type: bool) -> Result<(), OutOfMemory>
        ensures ok { OnOk result (self.new ≡ names.declared self.old (name.now, is_type)) }
        ensures err { OnErr result (self.new ≡ self.old) }
    {
        let kept = copied(name, self.alloc)?;
        let place = numbered(&mut self.current, name, self.alloc)?;
        let before = meant(&self.current, place);
        self.innermost.push(Declared {
            name: kept,
            is_type,
            before,
        })?;
        set(&mut self.current, place, Some(is_type));
        Ok(())
    }

    /// Whether a name is a typedef name: the innermost declaration of it says (C11 6.2.1p4). Without a declaration only
    /// `__builtin_va_list` is one.
    pub fn is_type(&self, name: &[u8]) -> bool
        ensures { result ≡ names.is_type self.now name.now }
    {
        match meaning(&self.current, name) {
            Some(is_type) => is_type,
            None => name == b"__builtin_va_list".as_slice(),
        }
    }
}

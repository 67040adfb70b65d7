// What is held behind a pointer, so that what has been made for a node takes little room where it is nothing, a node or a type.
ghost use Rattle.std.specs.Prelude.{◌≡◌, IfOk};

use crate::derivation::Derivation;
use std::alloc::{AllocError, Global};
use std::marker::Model;

/// A list behind a pointer, and nothing where it has no items. Clauses see it as its items, and not as the memory behind them.
#[derive(Drop)]
pub struct BoxedList<T> {
    held: Option<Box<Vec<T>>>,
}

impl<T> Model for BoxedList<T> {
    ghost use Rattle.std.specs.Prelude.{[], Some, None};
    ghost use Rattle.c_results.specs.Listed.{Listed};

    ghost Value = { Listed T };

    ghost view = { λ a. record { items = elim a.held [ None ↦ [] | Some list ↦ list.value.items ] } };
}

impl<T: Drop> BoxedList<T> {
    /// The list of a vector's items.
    pub fn of(alloc: Global, items: Vec<T>) -> Result<BoxedList<T>, AllocError>
        ensures { IfOk result (λ list. list.items ≡ items.items) }
    {
        if items.is_empty() {
            return Ok(BoxedList { held: None });
        }
        let held = Box::new(alloc, items)?;
        Ok(BoxedList { held: Some(held) })
    }

    /// The items, borrowed.
    pub fn as_slice(&self) -> &[T]
        ensures value { result.now ≡ self.now.items }
    {
        match &self.held {
            None => &[],
            Some(list) => list.as_slice(),
        }
    }
}

/// Words of specifiers, behind a pointer. Clauses see them as the list of them.
#[derive(Drop)]
pub struct WordList {
    held: Box<Vec<u8>>,
}

impl Model for WordList {
    ghost use Rattle.std.specs.Prelude.{ℕ};
    ghost use Rattle.c_results.specs.Listed.{Listed};

    ghost Value = { Listed ℕ };

    ghost view = { λ a. record { items = a.held.value.items } };
}

impl WordList {
    /// The list of a vector's words.
    pub fn of(alloc: Global, words: Vec<u8>) -> Result<WordList, AllocError>
        ensures { IfOk result (λ list. list.items ≡ words.items) }
    {
        let held = Box::new(alloc, words)?;
        Ok(WordList { held })
    }

    /// The words, borrowed.
    pub fn as_slice(&self) -> &[u8]
        ensures value { result.now ≡ self.now.items }
    {
        self.held.as_slice()
    }
}

/// A step of a declarator, behind a pointer. Clauses see it as the step itself.
#[derive(Drop)]
pub struct BoxedDerivation {
    held: Box<Derivation>,
}

impl Model for BoxedDerivation {
    ghost use Rattle.c_results.specs.declared.derivation.Derivation.{Derivation};

    ghost Value = { Derivation };

    ghost view = { λ a. a.held.value };
}

impl BoxedDerivation {
    /// A step that is held so.
    pub fn of(alloc: Global, derivation: Derivation) -> Result<BoxedDerivation, AllocError>
        ensures { IfOk result (λ held. held ≡ derivation) }
    {
        let held = Box::new(alloc, derivation)?;
        Ok(BoxedDerivation { held })
    }

    /// The step, borrowed.
    pub fn get(&self) -> &Derivation
        ensures value { result.now ≡ self.now }
    {
        &self.held
    }
}

//! Types that are spelled by letters.

ghost use Rattle.std.specs.Prelude.{ℕ, List};
ghost use Rattle.c_types.specs.declared.term.Term.{Term};
ghost use Rattle.c_types.specs.Table.{IsAfter, HasTag};
ghost use Rattle.c_types.specs.Made.{IsSized, KeepsApart};

use crate::tagged::add_tagged;
use c_types::table::TypeTable;
use c_types::term::{MemberTerm, Name, OutOfMemory, Term, TypeId};
use std::alloc::Global;

/// A table, with the members of each structure and union that isn't closed yet; the first ones are of none.
#[derive(Drop)]
pub(crate) struct Builder {
    alloc: Global,
    named: bool,
    pub(crate) table: TypeTable,
    open: Vec<Vec<MemberTerm>>,
}

// A scalar type by its letter.
fn scalar(letter: u8) -> Term
    ensures { (n : ℕ) (terms : List Term) → IsAfter n result × HasTag n result × IsSized result × KeepsApart terms result }
{
    match letter {
        b'b' => Term::Bool,
        b'd' => Term::Floating,
        b'a' => Term::VaList,
        b'v' => Term::Void,
        b's' => Term::Integer {
            size: 2,
            rank: 3,
            signed: true,
        },
        b'i' => Term::Integer {
            size: 4,
            rank: 4,
            signed: true,
        },
        b'l' => Term::Integer {
            size: 8,
            rank: 5,
            signed: false,
        },
        _ => Term::Integer {
            size: 1,
            rank: 1,
            signed: true,
        },
    }
}

// The name of one letter.
fn letter_name(alloc: Global, letter: u8) -> Result<Name, OutOfMemory> {
    let mut text = String::new(alloc);
    text.push(char::from(letter))?;
    Ok(Name::from_text(text))
}

impl Builder {
    /// Nothing has been spelled. Letters are scalar types, or, named, members of type int of that name.
    pub(crate) fn new(alloc: Global, named: bool) -> Result<Builder, OutOfMemory> {
        let mut builder = Builder {
            alloc,
            named,
            table: TypeTable::new(alloc),
            open: Vec::new(alloc),
        };
        builder.begin()?;
        Ok(builder)
    }

    // What is open has no member yet.
    fn begin(&mut self) -> Result<(), OutOfMemory> {
        match self.open.push(Vec::new(self.alloc)) {
            Ok(()) => Ok(()),
            Err(_) => Err(OutOfMemory),
        }
    }

    // One member more of what is open last.
    fn push(&mut self, name: Option<Name>, ty: TypeId) -> Result<(), OutOfMemory> {
        let member = MemberTerm {
            name,
            ty,
            bits: None,
        };
        match self.open.last_mut() {
            Some(members) => match members.push(member) {
                Ok(()) => Ok(()),
                Err(_) => Err(OutOfMemory),
            },
            None => Ok(()),
        }
    }

    // A pointer to the last member's type in its place, or an array of so many.
    fn derive(&mut self, letter: u8) -> Result<(), OutOfMemory> {
        let Some(members) = self.open.last_mut() else {
            return Ok(());
        };
        let Some(member) = members.pop() else {
            return Ok(());
        };
        if self.table.type_count() <= member.ty.0 {
            return Ok(());
        }
        let ty = if letter == b'*' {
            self.table.add(Term::Pointer(member.ty))?
        } else {
            self.table.add(Term::Array {
                of: member.ty,
                length: Some(u64::from(letter.saturating_sub(b'0'))),
            })?
        };
        self.push(member.name, ty)
    }

    // A scalar.
    fn add(&mut self, letter: u8) -> Result<(), OutOfMemory> {
        let ty = self
            .table
            .add(scalar(if self.named { b'i' } else { letter }))?;
        let name = if self.named {
            Some(letter_name(self.alloc, letter)?)
        } else {
            None
        };
        self.push(name, ty)
    }

    // What is open last, as a union or structure; nothing where it doesn't fit.
    fn close(&mut self, union: bool) -> Result<(), OutOfMemory> {
        if let Some(members) = self.open.pop() {
            if let Some(id) = add_tagged(&mut self.table, union, members)? {
                return self.push(None, id);
            }
        }
        Ok(())
    }

    // One letter.
    fn read(&mut self, letter: u8) -> Result<(), OutOfMemory> {
        match letter {
            b'{' | b'[' => self.begin(),
            b'}' | b']' => self.close(letter == b']'),
            b'*' | b'0'..=b'9' => self.derive(letter),
            _ => self.add(letter),
        }
    }

    /// The last type that a text spells: letters as of `new`, `*` points to the last type and a digit makes an array of so many,
    /// and braces and brackets hold the members of a structure and a union.
    pub(crate) fn spelled(&mut self, text: &str) -> Result<Option<TypeId>, OutOfMemory> {
        for letter in text.bytes() {
            self.read(letter)?;
        }
        let Some(members) = self.open.last() else {
            return Ok(None);
        };
        match members.last() {
            Some(member) => Ok(Some(member.ty)),
            None => Ok(None),
        }
    }
}

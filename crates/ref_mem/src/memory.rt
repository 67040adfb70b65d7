// All instances.

ghost use Rattle.std.specs.Prelude.{◌≡◌, ◌<◌, ◌^◌, [], ◌∷◌, ◌++◌, Some, None, true, false, IfOk, OnOk, OnErr, length, set, slice_get};
ghost use Rattle.c_types.specs.Table.{type_of};
ghost use Rattle.c_types.specs.Trees.{PointerTo, VoidType};
ghost use Rattle.ref_cells.specs.Answers.{Gives, Agrees};
ghost use Rattle.ref_cells.specs.Places.{AreKnown};
ghost use Rattle.ref_cells.specs.Values.{elements, filled};
ghost use Rattle.ref_mem.specs.Reads.{content, read, read_character};
ghost use Rattle.ref_cells.specs.declared.instance.Instance.{Instance};
ghost use Rattle.ref_mem.specs.Writes.{write, changed, typed_as, with_parts, character_part};

use crate::reads::{content, read, read_character};
use crate::writes::{character_part, put_all, put_typed, write, write_pointer};
use c_types::key::ObjectKey;
use c_types::table::TypeTable;
use c_types::term::{OutOfMemory, PathStep, TypeId};
use ref_cells::cells::{Cell, Cells, MemFault, Path, Reason, Value};
use ref_cells::fill::{Filling, filled, filled_elements};
use ref_cells::instance::Instance;
use std::alloc::Global;
use std::marker::Model;

/// The instances of all objects, which are numbered from 0 in the order in which they were made. None is ever taken out.
/// Contracts see a memory as the list of its instances.
#[derive(Drop)]
pub struct Memory {
    alloc: Global,
    instances: Vec<Instance>,
}

impl Model for Memory {
    ghost use Rattle.std.specs.Prelude.{◌<◌, ◌^◌, List, length};
    ghost use Rattle.ref_cells.specs.declared.instance.Instance.{Instance};

    ghost Value = { List Instance };

    ghost view = { λ m. m.instances.items };

    ghost invariant = { λ m. length m.instances.items < 2 ^ 32 };
}

impl Memory {
    /// The memory without instances.
    pub fn new(alloc: Global) -> Memory
        ensures { result ≡ [] }
    {
        Memory {
            alloc,
            instances: Vec::new(alloc),
        }
    }

    /// All instances in the order of their numbers. It takes no memory.
    pub fn instances(&self) -> &[Instance]
        ensures { result.now ≡ self.now }
    {
        self.instances.as_slice()
    }

    /// Makes a live instance without cells, and gives its number. Want of memory leaves the memory as it was.
    pub fn make(
        &mut self,
        types: &TypeTable,
        key: ObjectKey,
        ty: Option<TypeId>,
        bytes: u64,
        zero: bool,
    ) -> Result<u32, OutOfMemory>
        ensures number { IfOk result (λ n. n ≡ length self.old) }
        ensures ok { OnOk result
            (self.new
            ≡ self.old
            ++ record { key = key; live = true; ty = ty; bytes = bytes; zero = zero; cells = [] } ∷ []) }
        ensures err { OnErr result (self.new ≡ self.old) }
    {
        let _ = types;
        if self.instances.len() >= u32::MAX as usize {
            return Err(OutOfMemory);
        }
        let number = self.instances.len() as u32;
        let instance = Instance {
            key,
            live: true,
            ty,
            bytes,
            zero,
            cells: Cells::none(self.alloc),
        };
        match self.instances.push(instance) {
            Ok(()) => Ok(number),
            Err(_) => Err(OutOfMemory),
        }
    }

    /// Makes a live instance with these cells, and gives its number. Want of memory leaves the memory as it was.
    pub fn make_with(
        &mut self,
        key: ObjectKey,
        ty: Option<TypeId>,
        bytes: u64,
        cells: Cells,
    ) -> Result<u32, OutOfMemory>
        ensures number { IfOk result (λ n. n ≡ length self.old) }
        ensures ok { OnOk result
            (self.new
            ≡ self.old
            ++ record { key = key; live = true; ty = ty; bytes = bytes; zero = false; cells = cells } ∷ []) }
        ensures err { OnErr result (self.new ≡ self.old) }
    {
        if self.instances.len() >= u32::MAX as usize {
            return Err(OutOfMemory);
        }
        let number = self.instances.len() as u32;
        let instance = Instance {
            key,
            live: true,
            ty,
            bytes,
            zero: false,
            cells,
        };
        match self.instances.push(instance) {
            Ok(()) => Ok(number),
            Err(_) => Err(OutOfMemory),
        }
    }

    /// Puts instances behind the others. Want of memory leaves the memory as it was.
    pub fn append(&mut self, fresh: Vec<Instance>) -> Result<(), OutOfMemory>
        ensures ok { OnOk result (self.new ≡ self.old ++ fresh.items) }
        ensures err { OnErr result (self.new ≡ self.old) }
    {
        let mut fresh = fresh;
        if fresh.len() > u32::MAX as usize - self.instances.len() {
            return Err(OutOfMemory);
        }
        self.instances.append(&mut fresh)?;
        Ok(())
    }

    /// Puts an instance in place of the one of that number. It takes no memory.
    pub fn set(&mut self, instance: u32, inst: Instance)
        requires { instance < length self.old }
        ensures { self.new ≡ set self.old instance inst }
    {
        self.instances[instance as usize] = inst;
    }

    /// All cells of the first so many elements of an instance, unset ones too, where its elements have that type.
    pub fn first_elements(
        &self,
        types: &TypeTable,
        instance: u32,
        of: TypeId,
        n: u64,
    ) -> Result<Cells, OutOfMemory>
        requires instance { instance < length self.now }
        requires of { of.0 < length types.now.terms }
        ensures { IfOk result (λ cells.
            (inst : Instance) →
            slice_get self.now instance ≡ Some inst →
            cells ≡ elements (filled types.now inst.zero (type_of types.now of.0)) n inst.cells) }
    {
        elements_of(self.alloc, types, &self.instances[instance as usize], of, n)
    }

    /// The value of a type at a place: a scalar, a structure or a union. The checks come in the order of `Places`.
    pub fn read(&self, types: &TypeTable, place: &Cell, ty: TypeId) -> Result<Value, MemFault>
        requires memory { AreKnown (length types.now.terms) self.now }
        requires ty { ty.0 < length types.now.terms }
        ensures { Gives (λ v. v) result (read types.now self.now place.now (type_of types.now ty.0)) }
    {
        read(self.alloc, types, self.instances.as_slice(), place, ty)
    }

    /// Puts a value of a type at a place: a scalar, a structure or a union. A refusal leaves the memory as it was.
    pub fn write(
        &mut self,
        types: &TypeTable,
        place: &Cell,
        ty: TypeId,
        value: &Value,
    ) -> Result<(), MemFault>
        requires memory { AreKnown (length types.now.terms) self.old }
        requires ty { ty.0 < length types.now.terms }
        ensures value { Gives (λ _. self.new) result (write types.now self.old place.now (type_of types.now ty.0) value.now) }
        ensures err { OnErr result (self.new ≡ self.old) }
    {
        write(self.alloc, types, &mut self.instances, place, ty, value)?;
        Ok(())
    }

    /// The character at a place, read as one of type `char`. It takes no memory. The checks come in the order of `Places`.
    pub fn read_character(&self, types: &TypeTable, place: &Cell) -> Result<i128, Reason>
        requires { AreKnown (length types.now.terms) self.now }
        ensures { Agrees (λ n. n) result (read_character types.now self.now place.now) }
    {
        read_character(types, self.instances.as_slice(), place)
    }

    /// A character as a part of the instance of a place, under the place's path. The place is checked as a write of type
    /// `char` there checks it.
    pub fn character_part(
        &self,
        types: &TypeTable,
        place: &Cell,
        c: i128,
    ) -> Result<(Path, Cells), MemFault>
        requires { AreKnown (length types.now.terms) self.now }
        ensures { Gives (λ part. part) result (character_part types.now self.now place.now c) }
    {
        character_part(self.alloc, types, self.instances.as_slice(), place, c)
    }

    /// Puts a pointer at a place, as a value of type `void *`. A refusal leaves the memory as it was.
    pub fn write_pointer(
        &mut self,
        types: &TypeTable,
        place: &Cell,
        value: &Value,
    ) -> Result<(), MemFault>
        requires { AreKnown (length types.now.terms) self.old }
        ensures value { Gives (λ _. self.new) result (write types.now self.old place.now (PointerTo VoidType) value.now) }
        ensures err { OnErr result (self.new ≡ self.old) }
    {
        write_pointer(self.alloc, types, &mut self.instances, place, value)?;
        Ok(())
    }

    /// Puts several parts into an instance, one after another. Want of memory leaves the memory as it was.
    pub fn put_parts(
        &mut self,
        types: &TypeTable,
        instance: u32,
        parts: &[(Path, Cells)],
    ) -> Result<(), OutOfMemory>
        requires instance { instance < length self.old }
        requires memory { AreKnown (length types.now.terms) self.old }
        ensures ok { OnOk result
            (self.new ≡ changed self.old instance (slice_get self.old instance) (with_parts types.now parts.now)) }
        ensures err { OnErr result (self.new ≡ self.old) }
    {
        put_typed(
            self.alloc,
            types,
            &mut self.instances[instance as usize],
            parts,
        )
    }

    /// All cells of a part of an instance, unset ones too, where the part has that type; none where the path goes through a
    /// member that isn't active.
    pub fn content(
        &self,
        types: &TypeTable,
        instance: u32,
        path: &[PathStep],
        ty: TypeId,
    ) -> Result<Option<Cells>, OutOfMemory>
        requires instance { instance < length self.now }
        requires memory { AreKnown (length types.now.terms) self.now }
        requires ty { ty.0 < length types.now.terms }
        ensures { IfOk result (λ cells.
            (inst : Instance) →
            slice_get self.now instance ≡ Some inst →
            cells ≡ content types.now inst path.now (type_of types.now ty.0)) }
    {
        content(
            self.alloc,
            types,
            &self.instances[instance as usize],
            path,
            ty,
        )
    }

    /// Puts several parts into an instance, one after another. It gets that type where it has none. Want of memory leaves
    /// the memory as it was.
    pub fn put_all(
        &mut self,
        types: &TypeTable,
        instance: u32,
        id: TypeId,
        parts: &[(Path, Cells)],
    ) -> Result<(), OutOfMemory>
        requires instance { instance < length self.old }
        requires memory { AreKnown (length types.now.terms) self.old }
        requires id { id.0 < length types.now.terms }
        ensures ok { OnOk result
            (self.new
            ≡ changed self.old instance (slice_get self.old instance)
            (λ inst. with_parts types.now parts.now (typed_as id inst))) }
        ensures err { OnErr result (self.new ≡ self.old) }
    {
        put_all(
            self.alloc,
            types,
            &mut self.instances[instance as usize],
            id,
            parts,
        )
    }

    /// Gives an instance a type. It takes no memory.
    pub fn give_type(&mut self, types: &TypeTable, instance: u32, ty: TypeId)
        requires { instance < length self.old }
        ensures { self.new ≡ changed self.old instance (slice_get self.old instance) (λ inst. record inst { ty = Some ty }) }
    {
        let _ = types;
        let inst = &mut self.instances[instance as usize];
        inst.ty = Some(ty);
    }

    /// Sets the mark of an instance by which what isn't listed is zero or null. It takes no memory.
    pub fn set_zero(&mut self, instance: u32)
        requires { instance < length self.old }
        ensures { self.new ≡ changed self.old instance (slice_get self.old instance) (λ inst. record inst { zero = true }) }
    {
        let inst = &mut self.instances[instance as usize];
        inst.zero = true;
    }

    /// Makes each cell of an instance zero or null, in a union those of the first member. It takes no memory.
    pub fn clear(&mut self, instance: u32)
        requires { instance < length self.old }
        ensures { self.new
            ≡ changed self.old instance (slice_get self.old instance) (λ inst. record inst { zero = true; cells = [] }) }
    {
        let cells = Cells::none(self.alloc);
        let inst = &mut self.instances[instance as usize];
        inst.zero = true;
        inst.cells = cells;
    }

    /// Ends an instance. It takes no memory.
    pub fn end(&mut self, instance: u32)
        requires { instance < length self.old }
        ensures { self.new ≡ changed self.old instance (slice_get self.old instance) (λ inst. record inst { live = false }) }
    {
        let inst = &mut self.instances[instance as usize];
        inst.live = false;
    }

    /// An equal memory.
    pub fn copy(&self) -> Result<Memory, OutOfMemory>
        ensures { IfOk result (λ memory. memory ≡ self.now) }
    {
        let instances = copy_instances(self.alloc, self.instances.as_slice())?;
        Ok(Memory {
            alloc: self.alloc,
            instances,
        })
    }
}

/// All cells of a value of a type, in unions those of the first members: zero or null where `zero` stands, else unset.
pub fn blank_cells(
    alloc: Global,
    types: &TypeTable,
    ty: TypeId,
    zero: bool,
) -> Result<Cells, OutOfMemory>
    requires { ty.0 < length types.now.terms }
    ensures { IfOk result (λ cells. cells ≡ filled types.now zero (type_of types.now ty.0) []) }
{
    let filling = Filling {
        alloc,
        types,
        marked: zero,
    };
    let list = filled(&filling, ty, &[], 0)?;
    Ok(Cells::of(list))
}

fn elements_of(
    alloc: Global,
    types: &TypeTable,
    inst: &Instance,
    of: TypeId,
    n: u64,
) -> Result<Cells, OutOfMemory>
    requires { of.0 < length types.now.terms }
    ensures { IfOk result (λ cells.
        cells ≡ elements (filled types.now inst.now.zero (type_of types.now of.0)) n inst.now.cells) }
{
    let filling = Filling {
        alloc,
        types,
        marked: inst.zero,
    };
    let list = filled_elements(&filling, of, n, inst.cells.as_slice())?;
    Ok(Cells::of(list))
}

fn copy_instances(alloc: Global, instances: &[Instance]) -> Result<Vec<Instance>, OutOfMemory>
    ensures { IfOk result (λ list. list.items ≡ instances.now) }
{
    let mut list = Vec::new(alloc);
    for instance in instances {
        let copy = instance.copy(alloc)?;
        match list.push(copy) {
            Ok(()) => {}
            Err(_) => return Err(OutOfMemory),
        }
    }
    Ok(list)
}

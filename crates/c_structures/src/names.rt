// Names of members.
ghost use Rattle.std.specs.Prelude.{◌≡◌, ◌++◌, ◌∷◌, [], ◌||◌, ℕ, List, map, IfOk, OnOk};
ghost use Rattle.c_types.specs.Table.{Table};
ghost use Rattle.c_inits.specs.Made.{Part};
ghost use Rattle.c_inits.specs.Tables.{part_of};
ghost use Rattle.c_structures.specs.Named.{SaysNames, is_among, same_name};

use c_types::term::MemberTerm;
use std::alloc::{AllocError, Global};
use std::collections::BTreeSet;

/// The names of some members, and whether there are members.
#[derive(Drop)]
pub struct MemberNames {
    pub(crate) names: BTreeSet<Vec<u8>>,
    pub(crate) any: bool,
}

// Adds a name to a set of names.
fn add_name(names: &mut BTreeSet<Vec<u8>>, alloc: Global, name: &[u8]) -> Result<(), AllocError>
    ensures { OnOk result ((other : List ℕ) → is_among names.new other ≡ (same_name name.now other || is_among names.old other)) }
{
    let copy = Vec::from_slice(alloc, name)?;
    names.insert(copy)?;
    Ok(())
}

impl MemberNames {
    /// No member.
    pub fn new(alloc: Global) -> MemberNames
        ensures { SaysNames result [] }
    {
        MemberNames {
            names: BTreeSet::new(alloc),
            any: false,
        }
    }

    /// Whether a member has that name.
    pub fn contains(&self, name: &[u8]) -> bool
        ensures { result ≡ is_among self.now.names name.now }
    {
        self.names.contains(name)
    }

    // One member more.
    fn add(&mut self, alloc: Global, member: &MemberTerm) -> Result<(), AllocError>
        ensures { OnOk result ((table : Table) (parts : List Part) →
            SaysNames self.old parts → SaysNames self.new (parts ++ part_of table member.now ∷ [])) }
    {
        self.any = true;
        if let Some(name) = &member.name {
            add_name(&mut self.names, alloc, name.as_str().as_bytes())?;
        }
        Ok(())
    }

    /// These members more. Only memory may want.
    pub fn add_all(&mut self, alloc: Global, members: &[MemberTerm]) -> Result<(), AllocError>
        ensures { OnOk result ((table : Table) (parts : List Part) →
            SaysNames self.old parts → SaysNames self.new (parts ++ map (part_of table) members.now)) }
    {
        for member in members {
            self.add(alloc, member)?;
        }
        Ok(())
    }
}

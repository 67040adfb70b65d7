// Keys that are kept by nodes.
ghost use Rattle.std.specs.Prelude.{◌≡◌, ℕ, List, Some, None, OnOk};
ghost use Rattle.std.specs.Option.{option_copied};
ghost use Rattle.unit_keys.specs.given_keys.Kept.{key_at};

use pta_base::Text;
use std::alloc::{AllocError, Global};
use std::collections::BTreeMap;
use std::marker::Model;

/// Keys by the nodes that have them.
#[derive(Drop)]
pub(in crate::given_keys) struct KeptKeys {
    entries: BTreeMap<u32, Text>,
}

impl Model for KeptKeys {
    ghost use Rattle.std.specs.Prelude.{List, ℕ};

    ghost Value = { List (ℕ × List ℕ) };

    ghost view = { λ m. m.entries.entries };
}

impl KeptKeys {
    /// No key yet.
    pub(in crate::given_keys) fn new(alloc: Global) -> KeptKeys
        ensures { (q : ℕ) → key_at result q ≡ None }
    {
        KeptKeys {
            entries: BTreeMap::new(alloc),
        }
    }

    /// The key of a node.
    pub(in crate::given_keys) fn get(&self, node: u32) -> Option<&Text>
        ensures { option_copied result ≡ key_at self.now node }
    {
        self.entries.get(&node)
    }

    /// A node's key.
    pub(in crate::given_keys) fn put(&mut self, node: u32, key: Text) -> Result<(), AllocError>
        ensures here { OnOk result (key_at self.new node ≡ Some key) }
        ensures others { OnOk result ((q : ℕ) → (node ≡ q → ⊥) → key_at self.new q ≡ key_at self.old q) }
    {
        self.entries.insert(node, key)?;
        Ok(())
    }
}

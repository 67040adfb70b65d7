// The outside: texts by name, and where bytes go. A fault is counted, so that an answer that blames the outside shows.
ghost use Rattle.std.specs.Prelude.{◌≡◌, ℕ, ◌++◌, ◌<◌, ◌≤◌, List, length, take, Option, option_map, IfOk, IfSome, OnOk, OnErr};
ghost use Rattle.pta_base.specs.Outside.{HasRisen, IsCopied};

/// The outside failed: a text couldn't be read, or nothing could be written.
#[derive(Clone, Copy, Debug, PartialEq, Eq)]
pub struct Failed;

/// Texts by name, where the units come from. An implementation may keep one count of faults for all names; code that is
/// generic over the trait learns of the name that it read alone.
pub trait Units {
    /// The text of a name, where it is told.
    ghost text: { Self → List ℕ → Option (List ℕ) };

    /// How often the outside has failed under a name. It never falls.
    ghost faults: { Self → List ℕ → ℕ };

    /// Copies bytes of a text from a place on into a buffer that isn't empty, and answers how many: 0 only at the text's
    /// end. No call changes a text. `Failed` comes only where the faults of this very name rose, and `Ok` leaves those of
    /// every name as they were.
    fn read(&mut self, name: &str, at: u64, buf: &mut [u8]) -> Result<usize, Failed>
        requires { 0 < length buf.old }
        ensures within { IfOk result (λ count. count ≤ length buf.new) }
        ensures copied { IfOk result (λ count. IfSome (text self.old name.now) (λ told. IsCopied told at count buf.new)) }
        ensures texts { (other : List ℕ) → text self.new other ≡ text self.old other }
        ensures cause { OnErr result (HasRisen (faults self.old name.now) (faults self.new name.now)) }
        ensures steady { OnOk result ((other : List ℕ) → faults self.new other ≡ faults self.old other) }
        ensures rises { (other : List ℕ) → faults self.old other ≤ faults self.new other };
}

/// Where bytes go, such as the report.
pub trait Sink {
    /// What was written, where it is told.
    ghost written: { Self → Option (List ℕ) };

    /// How often the outside has failed here. It never falls.
    ghost faults: { Self → ℕ };

    /// Takes a prefix of a piece that isn't empty, and answers its length, which is at least 1. `Failed` comes only where
    /// nothing was taken and the faults rose, and `Ok` leaves the faults as they were.
    fn write(&mut self, piece: &[u8]) -> Result<usize, Failed>
        requires { 0 < length piece.now }
        ensures some { IfOk result (λ count. 0 < count) }
        ensures within { IfOk result (λ count. count ≤ length piece.now) }
        ensures taken { IfOk result (λ count. written self.new ≡ option_map (λ before. before ++ take count piece.now) (written self.old)) }
        ensures err { OnErr result (written self.new ≡ written self.old) }
        ensures cause { OnErr result (HasRisen (faults self.old) (faults self.new)) }
        ensures steady { OnOk result (faults self.new ≡ faults self.old) }
        ensures rises { faults self.old ≤ faults self.new };
}

// Texts in memory, which fail at chosen calls.
ghost use Rattle.std.specs.Prelude.{◌≡◌, ◌⊎◌, ℕ, ◌+◌, ◌-◌, ◌^◌, ◌<◌, ◌≤◌, List, length, min, option_map, IfOk, IfSome, IsSome, OnOk, OnErr};
ghost use Rattle.std.specs.Option.{ForSome};
ghost use Rattle.std.specs.Prelude.{Some, None};
ghost use Rattle.pta_base.specs.Outside.{HasRisen, IsCopied, text_of};
ghost use Rattle.pta_base.specs.Steps.{within};

use crate::steps::within;
use crate::{Failed, Units};

/// Names with their texts. Each read fails whose number, from 0, is listed, and so does one of an unknown name. Where a
/// name stands twice, its first text counts.
#[derive(Drop)]
pub struct MemoryUnits {
    texts: Vec<(String, Vec<u8>)>,
    failing: Vec<u64>,
    step: Option<usize>,
    calls: u64,
    faults: u64,
    ghost stepping: { ForSome step (λ bytes. 0 < bytes) },
}

impl MemoryUnits {
    ghost use Rattle.pta_base.specs.MemoryUnits.{reads_of, failing_of, step_of};

    /// Texts under their names, and the numbers of the reads that are to fail. All texts are told, and no fault has been.
    pub fn new(texts: Vec<(String, Vec<u8>)>, failing: Vec<u64>) -> MemoryUnits
        ensures text { (name : List ℕ) → ⟦<MemoryUnits as Units>⟧.text result name ≡ text_of texts.items name }
        ensures faults { (name : List ℕ) → ⟦<MemoryUnits as Units>⟧.faults result name ≡ 0 }
        ensures failing { failing_of result ≡ failing.items }
        ensures reads { reads_of result ≡ 0 }
        ensures step { step_of result ≡ None }
    {
        MemoryUnits {
            texts,
            failing,
            step: None,
            calls: 0,
            faults: 0,
        }
    }

    /// The same with reads that are short: each copies at most so many bytes, at least 1.
    pub fn short(texts: Vec<(String, Vec<u8>)>, failing: Vec<u64>, step: usize) -> MemoryUnits
        requires { 0 < step }
        ensures text { (name : List ℕ) → ⟦<MemoryUnits as Units>⟧.text result name ≡ text_of texts.items name }
        ensures faults { (name : List ℕ) → ⟦<MemoryUnits as Units>⟧.faults result name ≡ 0 }
        ensures failing { failing_of result ≡ failing.items }
        ensures reads { reads_of result ≡ 0 }
        ensures step { step_of result ≡ Some step }
    {
        MemoryUnits {
            texts,
            failing,
            step: Some(step),
            calls: 0,
            faults: 0,
        }
    }
}

/// The text of a name.
fn find<'a>(texts: &'a [(String, Vec<u8>)], name: &str) -> Option<&'a [u8]>
    ensures { option_map (λ text. text.now) result ≡ text_of texts.now name.now }
{
    for (unit, text) in texts {
        if unit.as_str() == name {
            return Some(text.as_slice());
        }
    }
    None
}

/// Copies as much of a text as there is room for and as a step allows.
fn copy(text: &[u8], at: u64, step: Option<usize>, buf: &mut [u8]) -> usize
    requires room { 0 < length buf.old }
    requires stepping { ForSome step (λ bytes. 0 < bytes) }
    ensures within { result ≤ length buf.new }
    ensures copied { IsCopied text.now at result buf.new }
    ensures count { result ≡ within step (min (length text.now - at) (length buf.old)) }
{
    if at >= text.len() as u64 {
        return 0;
    }
    let rest = &text[at as usize..];
    let count = within(step, rest.len().min(buf.len()));
    buf[..count].copy_from_slice(&rest[..count]);
    count
}

impl Units for MemoryUnits {
    ghost use Rattle.pta_base.specs.MemoryUnits.{reads_of, failing_of, step_of, IsListed, IsUnknown};

    ghost text = { λ units name. text_of units.texts.items name };

    ghost faults = { λ units name. units.faults };

    /// Takes no memory. Fails exactly where this read is listed or no text has the name.
    fn read(&mut self, name: &str, at: u64, buf: &mut [u8]) -> Result<usize, Failed>
        requires { 0 < length buf.old }
        ensures within { IfOk result (λ count. count ≤ length buf.new) }
        ensures copied { IfOk result (λ count. IfSome (text_of self.old.texts.items name.now) (λ told. IsCopied told at count buf.new)) }
        ensures texts { (other : List ℕ) → text_of self.new.texts.items other ≡ text_of self.old.texts.items other }
        ensures cause { OnErr result (HasRisen self.old.faults self.new.faults) }
        ensures steady { OnOk result ((other : List ℕ) → self.new.faults ≡ self.old.faults) }
        ensures rises { (other : List ℕ) → self.old.faults ≤ self.new.faults }
        ensures fails { OnErr result (IsListed self.old ⊎ IsUnknown self.old name.now) }
        ensures spared { OnOk result (¬ IsListed self.old) }
        ensures known { OnOk result (IsSome (text_of self.old.texts.items name.now)) }
        ensures count { IfOk result
            (λ count. IfSome (text_of self.old.texts.items name.now)
            (λ told. count ≡ within (step_of self.old) (min (length told - at) (length buf.old)))) }
        ensures stepped { step_of self.new ≡ step_of self.old }
        ensures counted { reads_of self.new ≡ min (reads_of self.old + 1) (2 ^ 64 - 1) }
        ensures listed { failing_of self.new ≡ failing_of self.old }
    {
        let number = self.calls;
        self.calls = number.saturating_add(1);
        if self.failing.contains(&number) {
            self.faults = self.faults.saturating_add(1);
            return Err(Failed);
        }
        let Some(text) = find(&self.texts, name) else {
            self.faults = self.faults.saturating_add(1);
            return Err(Failed);
        };
        Ok(copy(text, at, self.step, buf))
    }
}

//! Things that are one where they have one label.

ghost use Rattle.std.specs.Prelude.{◌≡◌, ◌<◌, ◌^◌, ℕ, List, IfOk, OnOk, length};
ghost use Rattle.link_names.specs.Firsts.{known};
ghost use Rattle.link_model.specs.link_types.Leaders.{AreLeaders};
ghost use Rattle.unit_link.specs.link_program.Alike.{AreAlike, first_labelled, known_with};

use link_names::firsts::{Firsts, first_of_name};
use pta_base::{OutOfMemory, Text};
use std::alloc::Global;

// The first thing with that label, by the labels of those before; it is this one where it has no label, or where there is none before.
fn first_labelled(
    alloc: Global,
    firsts: &mut Firsts,
    label: &Option<Text>,
    here: u32,
) -> Result<u32, OutOfMemory>
    ensures first { IfOk result (λ first. first ≡ first_labelled (known firsts.old) label.now here) }
    ensures known { OnOk result ((other : List ℕ) → known firsts.new other ≡ known_with (known firsts.old) label.now here other) }
{
    match label {
        Some(text) => first_of_name(alloc, firsts, text.as_str().as_bytes(), here),
        None => Ok(here),
    }
}

/// For each thing the first one that is the same or has the same label, given the labels of those that have one.
pub fn leaders_alike(alloc: Global, labels: &[Option<Text>]) -> Result<Vec<u32>, OutOfMemory>
    requires { length labels.now < 2 ^ 32 }
    ensures alike { IfOk result (λ list. AreAlike labels.now list.items) }
    ensures leaders { IfOk result (λ list. AreLeaders list.items) }
{
    let mut firsts = Firsts::new(alloc);
    let mut list = Vec::new(alloc);
    for (here, label) in labels.iter().enumerate() {
        let leader = first_labelled(alloc, &mut firsts, label, here as u32)?;
        list.push(leader)?;
    }
    Ok(list)
}

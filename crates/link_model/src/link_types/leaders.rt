// Classes, each known by its first thing.

ghost use Rattle.std.specs.Prelude.{◌<◌, ◌^◌, IfOk, length};
ghost use Rattle.link_model.specs.link_types.Leaders.{AreLeaders, AreNumbers};

use pta_base::OutOfMemory;
use std::alloc::Global;

/// The number of each thing's class, and how many classes there are: they are counted in the order of their leaders.
pub fn numbered(alloc: Global, leaders: &[u32]) -> Result<(Vec<u32>, u32), OutOfMemory>
    requires leaders { AreLeaders leaders.now }
    requires room { length leaders.now < 2 ^ 32 }
    ensures { IfOk result (λ r. AreNumbers leaders.now r.0.items r.1) }
{
    let mut list: Vec<u32> = Vec::new(alloc);
    let mut count = 0;
    for (here, leader) in leaders.iter().enumerate() {
        if *leader as usize == here {
            list.push(count)?;
            count += 1;
        } else {
            list.push(list[*leader as usize])?;
        }
    }
    Ok((list, count))
}

//! What a worker needs memory for, made before any has begun.
ghost use Rattle.std.specs.Prelude.{◌≡◌, ◌≤◌, All, IfOk, length};
ghost use Rattle.demi_crew.specs.Serving.{IsEmpty};

use demi_context::Context;
use demi_core::NoMemory;
use demi_link::Link;
use demi_sched::Scheduler;
use std::alloc::Global;

/// Where the coroutines of one worker are held.
pub type Bench<'h> = Scheduler<Context<'h>, Link>;

// Lets go benches at which nobody worked.
fn close_all(mut benches: Vec<Bench>, links: u16)
    requires { All (IsEmpty links links) benches.items }
{
    while let Some(bench) = benches.pop() {
        bench.close();
    }
    benches.destroy_empty();
}

/// A bench for each of so many workers, with room for so many links, at the ports of so many. `NoMemory` only where memory was refused.
pub(crate) fn benches_for<'h>(
    alloc: Global,
    workers: u32,
    links: u16,
) -> Result<Vec<Bench<'h>>, NoMemory>
    requires few { (1 ≤ links) × (links ≤ 16) }
    ensures many { IfOk result (λ b. length b.items ≡ workers) }
    ensures empty { IfOk result (λ b. All (IsEmpty links links) b.items) }
{
    let mut benches = Vec::with_capacity(alloc, workers as usize)?;
    for _ in 0..workers {
        match Scheduler::make(alloc, links as u32, 3 + 2 * links as u32) {
            Ok(bench) => benches.push_reserved(bench),
            Err(NoMemory) => {
                close_all(benches, links);
                return Err(NoMemory);
            }
        }
    }
    Ok(benches)
}

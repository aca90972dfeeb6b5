// Runs the cases of the crate physics and prints what `oracle physics` prints for them.
#![tactic(auto)]

mod diagnostics;
mod forged;
mod lines;
mod memories;
mod refusals;
mod runs;

use memories::{Memories, STATE, WORK};
use std::io;

// A function that prints takes rt beside what it prints, as a level or the memories: a struct of both would have the type of the
// handle as a parameter, and be no plainer.
fn main(rt: HostRuntime) -> io::Result<()> {
    let mut memories = Memories {
        state: [0.0; STATE],
        work: [0.0; WORK],
    };
    runs::all(&rt, &mut memories)?;
    forged::levels(&rt, &mut memories)?;
    forged::times(&rt, &mut memories)?;
    diagnostics::levels(&rt)?;
    diagnostics::short(&rt)?;
    refusals::steps(&rt)?;
    refusals::builds(&rt)?;
    refusals::stores(&rt)
}

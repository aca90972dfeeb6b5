// Carries out the searches of the tables and prints what `oracle threshold` prints for them.
#![tactic(auto)]

mod drawn;
mod lines;
mod memories;
mod searches;
mod table;

use memories::{Memories, STATE, WORK};
use std::io;

fn main(rt: HostRuntime) -> io::Result<()> {
    let mut memories = Memories {
        state: [0.0; STATE],
        work: [0.0; WORK],
    };
    searches::written(&rt, &mut memories)?;
    searches::drawn(&rt, &mut memories)
}

// Runs the cases of the crate run and prints what `oracle run` prints for them.
#![tactic(auto)]

mod begin;
mod calls;
mod forged;
mod lines;
mod lists;
mod memories;
mod session;
mod settings;
mod whole;

use memories::{FRAMES, Memories, STATE, WORK};
use std::io;

fn main(rt: HostRuntime) -> io::Result<()> {
    let mut memories = Memories {
        state: [0.0; STATE],
        work: [0.0; WORK],
        frames: [0.0; FRAMES],
    };
    lists::all(&rt, &mut memories)?;
    whole::all(&rt, &mut memories)?;
    calls::all(&rt, &mut memories)?;
    begin::levels(&rt, &mut memories)?;
    begin::least_intervals(&rt, &mut memories)?;
    begin::intervals(&rt, &mut memories)?;
    begin::dx_levels(&rt, &mut memories)?;
    begin::lengths(&rt, &mut memories)?;
    begin::amplitudes(&rt, &mut memories)?;
    begin::orders(&rt, &mut memories)?;
    forged::states(&rt, &mut memories)?;
    forged::records(&rt, &mut memories)
}

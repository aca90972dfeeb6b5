// Runs the cases of the crate vectors and prints what `oracle vectors` prints for them.
#![tactic(auto)]

mod functions;
mod grid;
mod lists;
mod memories;
mod on_vector;
mod refusals;

use std::io;

fn main(rt: HostRuntime) -> io::Result<()> {
    grid::constants(&rt)?;
    grid::levels(&rt)?;
    functions::all(&rt)?;
    on_vector::mapped(&rt)?;
    on_vector::levels(&rt)?;
    on_vector::spikes(&rt)?;
    lists::shorts(&rt)?;
    refusals::all(&rt)?;
    grid::outside(&rt)?;
    grid::beyond(&rt)
}

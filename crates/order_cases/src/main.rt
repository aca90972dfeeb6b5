// Spells and carries out the orders of the table and prints what `oracle orders` prints for them.
#![tactic(auto)]

mod carry;
mod digest;
mod draft;
mod lent;
mod order;
mod orders;
mod permutations;
mod table;

use carry::{FRAMES, Memories, OUT, STATE, WORK};
use std::io;

fn main(rt: HostRuntime) -> io::Result<()> {
    let mut memories = Memories {
        state: [0.0; STATE],
        work: [0.0; WORK],
        frames: [0.0; FRAMES],
        out: [0; OUT],
    };
    orders::all(&rt, &mut memories)?;
    permutations::line(&rt)
}

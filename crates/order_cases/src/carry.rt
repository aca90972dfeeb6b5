// Carries out one order turn by turn and prints the lines of each turn.
use run::carry_out::{Lines, NoRoom, begin_order, go_on};
use std::io;

pub const STATE: usize = 1032;

pub const WORK: usize = 5160;

pub const FRAMES: usize = 8192;

pub const OUT: usize = 147520;

// No order of the table has as many turns.
const TURNS: u32 = 1024;

#[derive(Drop)]
pub struct Memories {
    pub state: [f64; STATE],
    pub work: [f64; WORK],
    pub frames: [f64; FRAMES],
    pub out: [u8; OUT],
}

impl Memories {
    pub fn carry_out(&mut self, rt: &impl Print, order: &[u8]) -> io::Result<()> {
        let Memories {
            state,
            work,
            frames,
            out,
        } = self;
        let mut carried = begin_order(order, state, work, frames, out);
        for _ in 0..TURNS {
            send(rt, carried, out)?;
            let Some(job) = carried.ok().and_then(|lines| lines.next) else {
                return Ok(());
            };
            carried = go_on(job, order, state, work, frames, out);
        }
        Ok(())
    }
}

fn send(rt: &impl Print, carried: Result<Lines, NoRoom>, out: &[u8]) -> io::Result<()> {
    let end = carried.map_or(0, |lines| lines.end);
    rt.write_all(&out[..end.min(out.len())])
}

// Whole runs, of cases that end without a NaN.
use crate::lines::Mass;
use crate::memories::{Memories, exact};
use crate::session::Session;
use crate::settings::case_of;
use std::io;
use vectors::bits::bits_of;

const ENDING: [usize; 23] = [
    0, 1, 3, 4, 5, 6, 7, 8, 9, 10, 11, 12, 16, 17, 18, 22, 23, 24, 25, 26, 27, 28, 33,
];

// Steps, time and mass; the frames and their digest.
pub fn all(rt: &impl Print, memories: &mut Memories) -> io::Result<()> {
    for k in ENDING {
        let settings = case_of(k).settings;
        let mut session = Session::begin(settings, exact(settings), memories);
        session.spend(2147483647, exact(settings));
        let record = session.record;
        print!(rt;
            "case {k} whole {} {:016x} ",
            record.steps,
            bits_of(record.time)
        )?;
        println!(rt;
            "{} frames {} {}",
            Mass(session.answer),
            session.frames,
            session.digest
        )?;
    }
    Ok(())
}

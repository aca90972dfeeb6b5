// What the stencils answer where a level or a length is refused, and that memory stays as it was.
use crate::memories::{self, Case, Contents, Operation};
use std::io;

const STENCILS: [Operation; 5] = [
    Operation::Diff,
    Operation::Diff2,
    Operation::Diff3,
    Operation::Dissipation,
    Operation::Neumann,
];

// The level, and the lengths of the vector, of the half dissipation and of the result.
#[rattlefmt::skip]
const ROWS: [(u32, usize, usize, usize); 17] = [
    (5, 33, 33, 33), (4, 17, 17, 17), (4, 33, 33, 33), (17, 33, 33, 33), (261, 33, 33, 33), (4, 32, 34, 34), (17, 34, 32, 32),
    (5, 32, 33, 33), (5, 34, 33, 33), (5, 33, 32, 32), (5, 33, 34, 34), (5, 32, 32, 32), (5, 34, 34, 34), (6, 33, 33, 33),
    (5, 33, 32, 33), (5, 4, 33, 33), (5, 5, 33, 33),
];

pub fn all(rt: &impl Print) -> io::Result<()> {
    for operation in STENCILS {
        rows(rt, operation)?;
    }
    Ok(())
}

// The digests are of memories of 80 numbers.
fn rows(rt: &impl Print, operation: Operation) -> io::Result<()> {
    for (level, length, half, room) in ROWS {
        let left = memories::run(Case {
            operation,
            level,
            contents: Contents::Units,
            size: 80,
            length,
            half,
            room,
        });
        print!(rt;
            "{operation} level {level} lengths {length} {room} answer {}",
            left.answer
        )?;
        println!(rt; " left {} {} {}", left.vector, left.half, left.out)?;
    }
    Ok(())
}

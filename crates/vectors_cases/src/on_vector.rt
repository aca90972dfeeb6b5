// exp mapped over lists, then every line of every vector: eleven kinds at levels 5 to 8, and at level 5 an infinity at each point.
use crate::lists;
use crate::memories::{self, Case, Contents, Left, Operation};
use cases::arguments;
use std::{fmt, io};
use vectors::grid::length_at_discretization;

// `exp_all` on lists of several lengths.
pub fn mapped(rt: &impl Print) -> io::Result<()> {
    for length in [0, 1, 2, 33, 129, 257] {
        let left = memories::run(Case {
            operation: Operation::ExpAll,
            level: 5,
            contents: Contents::WholeRange,
            size: length,
            length,
            half: 0,
            room: 0,
        });
        println!(rt; "exp all {length} {}", left.vector)?;
    }
    Ok(())
}

// A vector of a kind. `arguments::vector` takes every number for a kind, 16 to 48 for the places of an infinity.
#[derive(Clone, Copy)]
pub struct Vector {
    level: u32,
    kind: u32,
}

impl fmt::Display for Vector {
    fn fmt<W: fmt::Write>(&self, f: &mut fmt::Formatter<W>) -> fmt::Result {
        write!(f, "level {} vector {}", self.level, self.kind)
    }
}

pub fn levels(rt: &impl Print) -> io::Result<()> {
    for level in 5..=8 {
        kinds(rt, level)?;
    }
    Ok(())
}

fn kinds(rt: &impl Print, level: u32) -> io::Result<()> {
    for kind in 0..11 {
        Vector { level, kind }.lines(rt)?;
    }
    Ok(())
}

// Kind 16 has the infinity at the first point.
pub fn spikes(rt: &impl Print) -> io::Result<()> {
    for kind in 16..49 {
        Vector { level: 5, kind }.lines(rt)?;
    }
    Ok(())
}

impl Vector {
    fn lines(self, rt: &impl Print) -> io::Result<()> {
        println!(rt; "diff {self} {}", self.left_by(Operation::Diff).out)?;
        println!(rt; "diff2 {self} {}", self.left_by(Operation::Diff2).out)?;
        println!(rt; "diff3 {self} {}", self.left_by(Operation::Diff3).out)?;
        let dissipated = self.left_by(Operation::Dissipation);
        println!(rt; "dissipation {self} {}", dissipated.out)?;
        println!(rt; "corrected {self} {}", dissipated.half)?;
        self.of_values(rt)?;
        println!(rt;
            "neumann {self} {}",
            self.left_by(Operation::Neumann).vector
        )
    }

    fn left_by(self, operation: Operation) -> Left {
        let n = length_at_discretization(self.level);
        memories::run(Case {
            operation,
            level: self.level,
            contents: Contents::Kind(self.kind),
            size: n,
            length: n,
            half: n,
            room: n,
        })
    }

    fn of_values(self, rt: &impl Print) -> io::Result<()> {
        let mut values = [0.0; 257];
        let n = length_at_discretization(self.level).min(257);
        arguments::vector(self.level, self.kind, &mut values);
        lists::lines(rt, self, &values[..n])
    }
}

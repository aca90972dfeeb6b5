// The memories of a case: they are filled, a part of each is lent to a call, and what it leaves is taken down.
use cases::answers::number;
use cases::arguments::{self, Range};
use cases::digest::digest;
use std::fmt;
use vectors::answer::Refusal;

#[derive(Clone, Copy)]
pub enum Operation {
    Diff,
    Diff2,
    Diff3,
    Dissipation,
    Neumann,
    ExpAll,
}

impl fmt::Display for Operation {
    fn fmt<W: fmt::Write>(&self, f: &mut fmt::Formatter<W>) -> fmt::Result {
        f.write_str(match self {
            Operation::Diff => "diff",
            Operation::Diff2 => "diff2",
            Operation::Diff3 => "diff3",
            Operation::Dissipation => "dissipation",
            Operation::Neumann => "neumann",
            Operation::ExpAll => "exp all",
        })
    }
}

// What the vector holds before a call: a list of a range, or a vector of a kind.
#[derive(Clone, Copy)]
pub enum Contents {
    Units,
    WholeRange,
    Kind(u32),
}

#[derive(Clone, Copy)]
pub struct Case {
    pub operation: Operation,
    pub level: u32,
    pub contents: Contents,
    // How many numbers of each memory the digests are of.
    pub size: usize,
    // How many numbers of each memory the call gets.
    pub length: usize,
    pub half: usize,
    pub room: usize,
}

// The answer of a call, and the digests of the memories after it.
#[derive(Clone, Copy)]
pub struct Left {
    pub answer: u64,
    pub vector: u64,
    pub half: u64,
    pub out: u64,
}

pub fn run(case: Case) -> Left {
    let mut vector = [0.0; 257];
    let mut half = [0.0; 257];
    let mut out = [0.0; 257];
    fill(case.level, case.contents, &mut vector);
    arguments::list(Range::Unit as u32, 9, &mut half);
    arguments::list(Range::Unit as u32, 8, &mut out);
    let answer = call_on(case, &mut vector, &mut half, &mut out);
    let size = case.size.min(257);
    Left {
        answer: u64::from(number(answer)),
        vector: digest(&vector[..size]),
        half: digest(&half[..size]),
        out: digest(&out[..size]),
    }
}

fn fill(level: u32, contents: Contents, values: &mut [f64]) {
    match contents {
        Contents::Units => arguments::list(Range::Unit as u32, 7, values),
        Contents::WholeRange => arguments::list(Range::Exp as u32, 101, values),
        Contents::Kind(kind) => arguments::vector(level, kind, values),
    }
}

// The call on the parts that it gets.
fn call_on(
    case: Case,
    vector: &mut [f64],
    half: &mut [f64],
    out: &mut [f64],
) -> Result<(), Refusal> {
    let length = case.length.min(vector.len());
    let middle = case.half.min(half.len());
    let room = case.room.min(out.len());
    call(
        case.operation,
        case.level,
        &mut vector[..length],
        &mut half[..middle],
        &mut out[..room],
    )
}

fn call(
    operation: Operation,
    level: u32,
    vector: &mut [f64],
    half: &mut [f64],
    out: &mut [f64],
) -> Result<(), Refusal> {
    match operation {
        Operation::Diff => vectors::diff::diff(level, vector, out),
        Operation::Diff2 => vectors::diff::diff2(level, vector, out),
        Operation::Diff3 => vectors::diff::diff3_unnormalized(level, vector, out),
        Operation::Dissipation => vectors::diff::dissipation(level, vector, half, out),
        Operation::Neumann => vectors::diff::set_left_neumann_bc(vector),
        Operation::ExpAll => {
            vectors::exp::exp_all(vector);
            Ok(())
        }
    }
}

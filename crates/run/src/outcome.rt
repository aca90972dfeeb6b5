// How a run stands after its attempts.

// Collapse has the mass.
#[derive(Clone, Copy)]
pub enum Outcome {
    Collapse(f64),
    Broken,
    Timeout,
    Spent,
}

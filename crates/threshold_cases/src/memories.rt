// The two memories: what stands in them before a search, and how many of their numbers a search changed.
use vectors::grid::length_at_discretization;

pub const STATE: usize = 1040;

pub const WORK: usize = 5168;

// What the memories are filled with.
const FILLER: f64 = 1.2345678901234567e-89;

#[derive(Drop)]
pub struct Memories {
    pub state: [f64; STATE],
    pub work: [f64; WORK],
}

impl Memories {
    pub fn fill(&mut self) {
        self.state.fill(FILLER);
        self.work.fill(FILLER);
    }

    // How many numbers changed that runs of a level may not change.
    pub fn changed_beyond(&self, level: u32) -> usize {
        let n = length_at_discretization(level).min(129);
        changed(&self.state[8 * n..]).wrapping_add(changed(&self.work[40 * n..]))
    }

    pub fn changed(&self) -> usize {
        changed(&self.state).wrapping_add(changed(&self.work))
    }
}

fn changed(values: &[f64]) -> usize {
    values.iter().filter(|x| **x != FILLER).count()
}

// A run while a call goes on with it. Its methods stand in model.rt and simulate.rt.
ghost use Rattle.std.specs.Prelude.{◌≡◌, ◌*◌, ◌≤◌, length};
ghost use Rattle.std.specs.Prelude.{None};
ghost use Rattle.run.specs.Model.{fault_at, cell_count, work_count, frame_count};

use crate::settings::Record;

// Its record, how many frames the call wrote, and the memories that the call was lent.
#[derive(Drop)]
pub(crate) struct Live<'a> {
    pub(crate) run: Record,
    pub(crate) count: usize,
    pub(crate) state: &'a mut [f64],
    pub(crate) work: &'a mut [f64],
    pub(crate) frames: &'a mut [f64],
    ghost sound: { fault_at run.settings ≡ None },
    ghost state_fits: { cell_count run.settings ≤ length state.now },
    ghost work_fits: { work_count run.settings ≤ length work.now },
    ghost wrote: { count * frame_count run.settings ≤ length frames.now },
}

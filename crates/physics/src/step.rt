// What a step holds. Its passes are methods, in integration.rt.
ghost use Rattle.std.specs.Prelude.{◌*◌, ◌≤◌, length};
ghost use Rattle.physics.specs.Passed.{Gridded};

use crate::slots::Slots;

// The slots, with the grid in theirs, and the state memory that a step begins at. The slots are lent: of a struct that holds them whole, a caller
// learns nothing of what became of w, which was tried.
#[derive(Drop)]
pub(crate) struct Step<'a, 'b, 'c> {
    pub(crate) slots: &'a mut Slots<'b>,
    pub(crate) state: &'c [f64],
    ghost holds: { 8 * slots.now.n ≤ length state.now },
    ghost gridded: { Gridded slots.now },
}

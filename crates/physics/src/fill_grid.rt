// The grid, in its slots.
ghost use Rattle.physics.specs.Passed.{Passed};
ghost use Rattle.physics.specs.Passes.{grids};

use crate::slots;
use crate::slots::Slots;
use vectors::diff::radial_correction;
use vectors::grid::point;

impl Slots<'_> {
    // The points and the radial correction, to their slots. By an index, as the loops of constraint_computer.rt.
    pub(crate) fn fill_grid(&mut self)
        ensures { Passed grids self.old self.new }
    {
        let level = self.level;
        let n = self.n;
        let w = &mut *self.w;
        let points = slots::POINTS * n;
        let correction = slots::CORRECTION * n;
        for i in 0..n {
            let r = point(level, i);
            let c = radial_correction(r);
            w[points + i] = r;
            w[correction + i] = c;
        }
    }
}

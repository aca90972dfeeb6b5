// Lent memory that is written from a place on.
ghost use Rattle.std.specs.Prelude.{◌≤◌, length};

// Its methods move the place behind what they write. They stand in text.rt, report.rt and carry_out.rt.
#[derive(Drop)]
pub(crate) struct Writer<'a, T> {
    pub(crate) out: &'a mut [T],
    pub(crate) at: usize,
    ghost inside: { at ≤ length out.now },
}

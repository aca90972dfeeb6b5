// Why a begin or an advance is refused.
ghost use Rattle.std.specs.Prelude.{◌≡◌};
ghost use Rattle.run.specs.Refusal.{number_of};

// Each with document 01's number.
#[derive(Clone, Copy, Debug, PartialEq, Eq)]
pub enum Refusal {
    Level = 5,
    Interval = 6,
    DxLevel = 7,
    Memory = 11,
    Frames = 12,
    InitialNan = 13,
    Steps = 14,
}

impl From<Refusal> for u8 {
    ghost from_gives = { λ r n. n ≡ number_of r };

    fn from(refusal: Refusal) -> u8 {
        refusal as u8
    }
}

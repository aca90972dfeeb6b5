// Why a search is refused.
ghost use Rattle.std.specs.Prelude.{◌≡◌};
ghost use Rattle.threshold.specs.declared.refusal.Refusal.TheVariants.{Run};
ghost use Rattle.threshold.specs.Refusal.{number_of};

// By its ends or its halvings, by what the runs at its ends answer, or by begin at one of them.
#[derive(Clone, Copy, Debug, PartialEq, Eq)]
pub enum Refusal {
    Ends,
    Sides,
    Run(run::refusal::Refusal),
}

impl From<run::refusal::Refusal> for Refusal {
    ghost from_gives = { λ r s. s ≡ Run r };

    fn from(refusal: run::refusal::Refusal) -> Refusal {
        Refusal::Run(refusal)
    }
}

// Document 02's numbers, and document 01's.
impl From<Refusal> for u8 {
    ghost from_gives = { λ r n. n ≡ number_of r };

    fn from(refusal: Refusal) -> u8 {
        match refusal {
            Refusal::Ends => 15,
            Refusal::Sides => 16,
            Refusal::Run(refusal) => refusal.into(),
        }
    }
}

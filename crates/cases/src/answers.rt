// What a call answers, as the programs print it.
ghost use Rattle.std.specs.Prelude.{◌≡◌};
ghost use Rattle.vectors.specs.Answer.{number_of};

use vectors::answer::Refusal;

// 01's number of a refusal, 0 where there is none.
pub fn number(answer: Result<(), Refusal>) -> u32
    ensures { result ≡ number_of answer }
{
    answer.err().map_or(0, u32::from)
}

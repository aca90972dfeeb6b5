// What the spelling of an order answers: its number, and the position that the reader names with 1 to 4.
ghost use Rattle.std.specs.Prelude.{◌≡◌};
ghost use Rattle.order_forms.specs.Spelling.{answered_by};
ghost use Rattle.capi.specs.SpellCall.{spell_number, spell_position};

use order_forms::spelling::SpellError;

// Fewer bytes than the order has: document 02's number, for C's callers.
const NO_ROOM: u32 = 17;

// The number of an answer, its position written where it has one.
#[tactic(auto, unfolding(crate::specs::SpellCall::spell_number, crate::specs::SpellCall::spell_position))]
pub(crate) fn tell_spelled(spelled: Result<usize, SpellError>, position: &mut usize) -> u32
    ensures { (result ≡ spell_number (answered_by spelled)) × (position.new ≡ spell_position (answered_by spelled) position.old) }
{
    match spelled {
        Ok(_) => 0,
        Err(SpellError::Faulty(misread)) => {
            *position = misread.position;
            u32::from(u8::from(misread.fault))
        }
        Err(SpellError::NoRoom) => NO_ROOM,
    }
}

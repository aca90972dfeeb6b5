// Functions of the crate physics for C or Rust to link. A slice is a pointer, then a length. Each answers 0, or 5 or 11
// where it refuses, and then leaves both memories as they were.
#![tactic(auto)]

ghost use Rattle.std.specs.Prelude.{◌≡◌, ◌*◌, length};
ghost use Rattle.vectors.specs.Answer.{left_at};
ghost use Rattle.vectors.specs.Fault.{fault_of};
ghost use Rattle.vectors.specs.Grid.{points_of};
ghost use Rattle.vectors.specs.Memory.{part, put};
ghost use Rattle.physics.specs.InitialState.{initial_state_of};
ghost use Rattle.physics.specs.State.{lay_out};
ghost use Rattle.physics.specs.Stepped.{room_to_step};
ghost use Rattle.physics.specs.WorkAfter.{WorkAfter};
ghost use Rattle.physics.specs.WorkLaws.{RoomToStep};
ghost use Rattle.physics_c.specs.Next.{next_of};

use physics::integration::{checked_room, rk4_step};
use physics::state::store;
use physics::state_builder::build_initial_state;
use vectors::grid::length_at_discretization;

// The initial state, to state memory.
#[unsafe(no_mangle)]
pub extern "C" fn physics_begin(
    level: u32,
    amplitude: f64,
    state: &mut [f64],
    work: &mut [f64],
) -> u32
    ensures refused { result ≡ fault_of level (room_to_step level (length state.old) (length work.old)) }
    ensures kept { state.new ≡ left_at result (put 0 (lay_out (initial_state_of level amplitude)) state.old) state.old }
    ensures made { WorkAfter result level (initial_state_of level amplitude) work.old work.new }
{
    if let Err(refusal) = checked_room(level, state.len(), work.len()) {
        return refusal.into();
    }
    let _ = build_initial_state(level, amplitude, work);
    keep(level, state, work);
    0
}

// The state delta after the one in state memory, in its place.
#[unsafe(no_mangle)]
pub extern "C" fn physics_step(level: u32, delta: f64, state: &mut [f64], work: &mut [f64]) -> u32
    ensures refused { result ≡ fault_of level (room_to_step level (length state.old) (length work.old)) }
    ensures kept { state.new ≡ left_at result (put 0 (lay_out (next_of level delta state.old)) state.old) state.old }
    ensures made { WorkAfter result level (next_of level delta state.old) work.old work.new }
{
    if let Err(refusal) = rk4_step(level, 0.0, delta, state, work) {
        return refusal.into();
    }
    keep(level, state, work);
    0
}

// Stores the state that a call left in numbers 8n to 16n of work memory.
fn keep(level: u32, state: &mut [f64], work: &[f64])
    requires { RoomToStep level (length state.old) (length work.now) }
    ensures { state.new ≡ put 0 (part (8 * points_of level) (8 * points_of level) work.now) state.old }
{
    let n = length_at_discretization(level);
    let start = 8 * n;
    let end = 16 * n;
    let _ = store(level, &work[start..end], state);
}

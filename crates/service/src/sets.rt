// Sets of states as numbers.
ghost use Rattle.std.specs.Prelude.{◌≡◌, ◌-◌, ◌^◌, ◌≤◌};
ghost use Rattle.service.specs.Tables.{has_state};

use crate::limits::MAX_STATES;

// The set of all states below `states`.
pub(crate) fn full_set(states: u16) -> u16
    requires { states ≤ 16 }
    ensures { result ≡ 2 ^ states - 1 }
{
    ((1u32 << states) - 1) as u16
}

// Whether the state is in the set; a state past the last one is in none.
pub fn has_state(set: u16, state: u8) -> bool
    ensures { result ≡ has_state set state }
{
    usize::from(state) < MAX_STATES && (set >> state) % 2 == 1
}

// One service of a file: its states, and for each state and action the set of next states.
ghost use Rattle.std.specs.Prelude.{◌≡◌, ◌≤◌};
ghost use Rattle.service.specs.File.{Fills, row_of, table_of, service_of, zero_service};
ghost use Rattle.service.specs.FileTables.{set_at};

use crate::limits::{MAX_ACTIONS, MAX_STATES};
use crate::sets::full_set;
use wire::reader::Reader;
use wire::refusal::Refusal;

#[derive(Clone, Copy)]
pub struct Service {
    states: u8,
    initial: u8,
    finals: u16,
    // by state, then by action; bit q of an entry stands for the next state q
    // (an array of full size, so that reading cannot run out of memory)
    entries: [[u16; MAX_ACTIONS]; MAX_STATES],
}

impl Service {
    // The service of an unused slot: one state, and no action can be done in it.
    pub(crate) fn zero() -> Service
        ensures { result ≡ zero_service }
    {
        Service {
            states: 1,
            initial: 0,
            finals: 0,
            entries: [[0; MAX_ACTIONS]; MAX_STATES],
        }
    }

    pub(crate) fn states(&self) -> u8
        ensures { result ≡ self.now.states }
    {
        self.states
    }

    pub(crate) fn initial(&self) -> u8
        ensures { result ≡ self.now.initial }
    {
        self.initial
    }

    // The set of final states.
    pub(crate) fn finals(&self) -> u16
        ensures { result ≡ self.now.finals }
    {
        self.finals
    }

    // The set of next states from a state by an action; out of range it is empty, which is 0.
    pub(crate) fn entry(&self, state: u8, action: u8) -> u16
        ensures { result ≡ set_at self.now state action }
    {
        self.entries
            .get(usize::from(state))
            .and_then(|row| row.get(usize::from(action)))
            .copied()
            .unwrap_or(0)
    }
}

// Reads the entries of one state, one for each of `actions` actions.
fn fill_row(
    row: &mut [u16; MAX_ACTIONS],
    actions: u8,
    high: u16,
    reader: &mut Reader,
) -> Result<(), Refusal>
    requires { actions ≤ 16 }
    ensures fills { Fills result reader.new.at row.new (row_of reader.old.bytes.now actions high reader.old.at row.old) }
    ensures bytes { reader.new.bytes.now ≡ reader.old.bytes.now }
{
    for slot in &mut row[..usize::from(actions)] {
        *slot = reader.field(0, high)?;
    }
    Ok(())
}

// Reads a service of `actions` actions into `x`.
pub(crate) fn fill(x: &mut Service, actions: u8, reader: &mut Reader) -> Result<(), Refusal>
    requires { actions ≤ 16 }
    ensures fills { Fills result reader.new.at x.new (service_of reader.old.bytes.now actions reader.old.at x.old) }
    ensures bytes { reader.new.bytes.now ≡ reader.old.bytes.now }
{
    let states = reader.field(1, MAX_STATES as u16)?;
    let high = full_set(states);
    x.states = states as u8;
    x.initial = reader.field(0, states - 1)? as u8;
    x.finals = reader.field(0, high)?;
    for row in &mut x.entries[..usize::from(states)] {
        fill_row(row, actions, high, reader)?;
    }
    Ok(())
}

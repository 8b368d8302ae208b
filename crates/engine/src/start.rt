// What every entry point tests before it begins: the refusals 1 to 4, then 20 to 26, in order.
ghost use Rattle.std.specs.Prelude.{◌≡◌};
ghost use Rattle.engine.specs.Start.{begun_as, begun_of, begin_of};

use crate::Begun;
use network::{Network, Refusal, Refused, Table};

// Reads the network and the table, in place (an entry point for C moves no 5 KB), or refuses. `events` is the length of the event bytes; 0 where there are none.
pub(crate) fn start(
    state: &[u8],
    table: &[u8],
    events: usize,
    n: &mut Network,
    rows: &mut Table,
) -> Result<(), Refused>
    ensures { begun_as result n.new rows.new ≡ begin_of state.now table.now events }
{
    if state.len() != 5120 {
        return Err(Refused::from(Refusal::StateLength));
    }
    if table.len() != 256 {
        return Err(Refused::from(Refusal::TableLength));
    }
    if events % 16 != 0 {
        return Err(Refused::from(Refusal::EventsLength));
    }
    rows.read(table)?;
    n.open(state)
}

// The same by value, for the crate console: an entry point for C moves no 5 KB.
pub fn begin(state: &[u8], table: &[u8], events: usize) -> Result<Begun, Refused>
    ensures { begun_of result ≡ begin_of state.now table.now events }
{
    let mut network = Network::blank();
    let mut rows = Table::blank();
    start(state, table, events, &mut network, &mut rows)?;
    Ok(Begun {
        network,
        table: rows,
    })
}

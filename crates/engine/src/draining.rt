// The drain by rounds (document 01, "Drain by rounds").
ghost use Rattle.std.specs.Prelude.{◌≡◌};
ghost use Rattle.engine.specs.Draining.{drained_as, drain_end_of};

use crate::{Drained, start};
use drain::Drains;
use network::{Network, Refused, Table};

// The answer for what was drained; of a refusal, "counts 0, not quiet".
impl From<Result<Drains, Refused>> for Drained {
    ghost from_gives = { λ answer drained. drained ≡ drained_as answer };

    fn from(answer: Result<Drains, Refused>) -> Drained {
        match answer {
            Ok(drains) => Drained {
                number: 0,
                detail: 0,
                place: 0,
                forwards: drains.forwards,
                rounds: drains.rounds,
                quiet: drains.quiet,
            },
            Err(refused) => Drained {
                number: u8::from(refused.refusal),
                detail: refused.detail,
                place: refused.place,
                forwards: 0,
                rounds: 0,
                quiet: false,
            },
        }
    }
}

// The drain of what was read: what concerns messages is written into the state.
fn drain(state: &mut [u8], table: &[u8], budget: u32) -> Result<Drains, Refused>
    ensures { (drained_as result ≡ (drain_end_of state.old table.now budget).answer) ×
        (state.new ≡ (drain_end_of state.old table.now budget).state) }
{
    let mut n = Network::blank();
    let mut rows = Table::blank();
    start::start(&*state, table, 0, &mut n, &mut rows)?;
    let drains = drain::drain_all(&mut n, &rows, budget);
    n.save_messages(state);
    Ok(drains)
}

// Drains the state by rounds, within a budget of forwards: "it answers the forwards made, the rounds finished, and whether nothing
// is pending". A refusal leaves the state untouched.
pub fn relay_drain(state: &mut [u8], table: &[u8], budget: u32) -> Drained
    ensures { (result ≡ (drain_end_of state.old table.now budget).answer) ×
        (state.new ≡ (drain_end_of state.old table.now budget).state) }
{
    Drained::from(drain(state, table, budget))
}

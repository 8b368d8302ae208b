// The engine: the entry points that a host calls (document 01, "Numbers returned"): relay_run, relay_forward, relay_drain,
// relay_image, relay_check and relay_copy. Each takes arbitrary bytes and asks nothing; its promise is an equation that fixes the
// answer and each lent byte, on acceptance and refusal alike. The crate engine_c exports them to C.
//
// Read specs/Start.antt (the refusals before any event), specs/Run.antt (a run), specs/Alone.antt (the single forward, reading, writing),
// specs/Draining.antt and specs/Imaging.antt. What follows from the promises, on bytes, is the crate pages. specs/laws/ has laws that others
// cite (RunCounts.antt: what a run counts; RunSound.antt: soundness, and the pairs pending balance), proofs/ those of the functions' proofs.
#![tactic(auto)]

mod alone; // alone.rt: reading, writing and the single forward
mod counts; // counts.rt: the update of the tally
mod draining; // draining.rt: the drain by rounds
mod imaging; // imaging.rt: the image of a state, written to a second buffer
pub mod running; // running.rt: a run over a list of events
pub mod start; // start.rt: the refusals before any event

ghost use Rattle.std.specs.Prelude.{◌≡◌};
ghost use Rattle.network.specs.Refusal.{number_of};
ghost use Rattle.engine.specs.Run.{answered, run_of, Ends};

pub use alone::{relay_check, relay_copy, relay_forward};
pub use draining::relay_drain;
pub use imaging::relay_image;
use network::{Network, Refused, Table};

// The counts that a host lends: updated event by event.
#[repr(C)]
#[derive(Clone, Copy, Debug, Default, PartialEq, Eq)]
pub struct Tally {
    pub produced: u64,
    pub forwards: u64,
    pub deliveries: u64,
}

// The answer of a run: "a number, a place and the count of accepted events". In this and the following answers the detail, document 02's E1,
// lies where C has padding: the lowest peer or topic at fault where the number is 23 to 25, else 0; and the number is one because C reads it.
#[repr(C)]
#[derive(Clone, Copy, Debug, PartialEq, Eq)]
pub struct Answer {
    pub number: u8,
    pub detail: u8,
    pub place: usize,
    pub accepted: usize,
}

// The answer of a single forward: the peers that newly hold the message (document 02's E2, where C has padding), and their number.
#[repr(C)]
#[derive(Clone, Copy, Debug, PartialEq, Eq)]
pub struct Forwarded {
    pub number: u8,
    pub detail: u8,
    pub place: usize,
    pub deliveries: u32,
    pub receivers: u32,
}

// The answer of a drain: a refusal and its place, or the forwards made, the rounds finished and whether nothing is pending.
#[repr(C)]
#[derive(Clone, Copy, Debug, PartialEq, Eq)]
pub struct Drained {
    pub number: u8,
    pub detail: u8,
    pub place: usize,
    pub forwards: u32,
    pub rounds: u32,
    pub quiet: bool,
}

// What an entry point begins with, by value.
#[derive(Clone, Copy)]
pub struct Begun {
    pub network: Network,
    pub table: Table,
}

impl Answer {
    // So many events were accepted, and all are done.
    fn done(accepted: usize) -> Answer
        ensures { result ≡ answered 0 0 0 accepted }
    {
        Answer {
            number: 0,
            detail: 0,
            place: 0,
            accepted,
        }
    }

    // Refused, after so many accepted events. (These are no `From`: the count stands beside the refusal.)
    fn refused(refused: Refused, accepted: usize) -> Answer
        ensures { result ≡ answered (number_of refused.refusal) refused.place refused.detail accepted }
    {
        Answer {
            number: u8::from(refused.refusal),
            detail: refused.detail,
            place: refused.place,
            accepted,
        }
    }
}

// The run over a list of events. Refused before any event with everything untouched, or the events are run and the state is written: the
// network is read into a place of this function's own, run on there and written from there. The tally is the host's own, updated event by event.
pub fn relay_run(state: &mut [u8], table: &[u8], events: &[u8], tally: &mut Tally) -> Answer
    ensures { Ends result state.new tally.new
        (run_of state.old table.now events.now tally.old) }
{
    let mut n = Network::blank();
    let mut rows = Table::blank();
    if let Err(refused) = start::start(&*state, table, events.len(), &mut n, &mut rows) {
        return Answer::refused(refused, 0);
    }
    let answer = running::run_events(&mut n, &rows, events, tally);
    n.save(state);
    answer
}

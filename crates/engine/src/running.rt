// A run over a list of events: each event is taken through a reader and done on the network that is lent, and the lent tally is updated
// event by event.
ghost use Rattle.network.specs.Network.{Rows};
ghost use Rattle.floodnet.specs.Step.{numbered};
ghost use Rattle.engine.specs.Run.{Turn, ReadFits, ran, run_all, RunsTo};

use crate::{Answer, Tally};
use events::Event;
use events::kind::Kind;
use floodnet::Turned;
use network::{Network, Refusal, Refused, Table};

// What was read is done, or refused as reading refuses it. (Where there is no event the kind is `Skip`, which counts nothing.)
#[tactic(auto, unfolding(crate::specs::Run::turn_of, crate::specs::Run::ReadFits))]
fn turn(n: &mut Network, rows: &Table, read: Option<Result<Event, Refusal>>) -> Turned
    requires fits { ReadFits read }
    requires rows { Rows rows.now }
    ensures { Turn rows.now n.old read n.new (numbered result) }
{
    match read {
        Some(Ok(e)) => floodnet::step(n, rows, e),
        Some(Err(refusal)) => Turned {
            kind: Kind::Skip,
            outcome: Err(refusal),
        },
        None => Turned {
            kind: Kind::Skip,
            outcome: Ok(0),
        },
    }
}

// Every event of the list, on a network; the tally starts from zero. (By place, and through no iterator: a run is defined over places, specs/Run.antt, and a
// refusal answers its place.)
pub fn run_events(n: &mut Network, rows: &Table, events: &[u8], tally: &mut Tally) -> Answer
    requires { Rows rows.now }
    ensures { RunsTo (ran result n.new) tally.new (run_all events.now rows.now n.old) }
{
    *tally = Tally::default();
    let count = events.len() / 16;
    for place in 0..count {
        let turned = turn(&mut *n, rows, events::event_at(events, place));
        match turned.outcome {
            Ok(receivers) => tally.count_in(turned.kind, receivers),
            Err(refusal) => {
                let refused = Refused {
                    refusal,
                    place,
                    detail: 0,
                };
                return Answer::refused(refused, place);
            }
        }
    }
    Answer::done(count)
}

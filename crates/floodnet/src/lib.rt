// Floodnet: what the seven events ask and do (document 01, "Events"). `step` does one event; its promise is one equation, that the
// network becomes `after` (specs/Step.antt), and its answer, in the numbers of 01, is `turned_of`. Read specs/Step.antt, then the
// definitions it puts together: Refusals, Produce, Forward, Topics, Links. proofs/Code*.antt are laws that the proofs of functions use.
#![tactic(auto)]

ghost use Rattle.std.specs.Prelude.{◌≡◌};
ghost use Rattle.network.specs.Network.{Rows};
ghost use Rattle.events.specs.Fits.{EventFits};
ghost use Rattle.floodnet.specs.Step.{after, numbered, turned_of};

use events::Event;
use events::kind::Kind;
use network::{Network, Refusal, Table};

mod arrays; // arrays.rt: loops over the words of peers
mod rows; // rows.rt: loops over the rows of `known`
pub mod messages; // messages.rt: what produce and forward do; the drain calls forward
mod links; // links.rt: what subscribe, unsubscribe, leave and join do
mod refusals; // refusals.rt: what the events ask
pub mod turns; // turns.rt: an event of each kind, asked and done; the single forward calls its own

// What one event comes to: its kind, refused or not; and its outcome, which is the refusal, or the receivers of an accepted
// forward, the set of peers that newly hold its message, and the empty set for an accepted event of another kind.
#[derive(Clone, Copy)]
pub struct Turned {
    pub kind: Kind,
    pub outcome: Result<u32, Refusal>,
}

// One event: asked, and done if nothing refuses it.
#[tactic(auto, using(crate::proofs::CodeTurns::steps), unfolding(crate::specs::Step::refusal, crate::specs::Step::effect, crate::specs::Step::receivers_of, events::specs::Kind::kind_of, events::specs::Fits::EventFits))]
pub fn step(n: &mut Network, table: &Table, e: Event) -> Turned
    requires fits { EventFits e }
    requires rows { Rows table.now }
    ensures state { n.new ≡ after n.old table.now e }
    ensures answer { numbered result ≡ turned_of n.old table.now e }
{
    let outcome = match e {
        Event::Skip => Ok(0),
        Event::Produce(p, m) => turns::produce(n, table, p, m),
        Event::Forward(p, m) => turns::outcome_of_forward(n, table, p, m),
        Event::Subscribe(p, topics) => turns::subscribe(n, p, topics),
        Event::Unsubscribe(p, topics) => turns::unsubscribe(n, p, topics),
        Event::Leave(p) => turns::leave(n, p),
        Event::Join(p, j) => turns::join(n, p, j),
    };
    Turned {
        kind: e.kind(),
        outcome,
    }
}

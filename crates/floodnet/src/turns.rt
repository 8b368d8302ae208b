// An event of each kind: what it asks, and, if nothing refuses it, what it does. The result is the event's outcome (`Turned`).
#![tactic(auto, using(crate::proofs::CodeTurns::steps), unfolding(crate::specs::Step::refusal, crate::specs::Step::effect, crate::specs::Step::receivers_of, events::specs::Kind::kind_of))]

ghost use Rattle.std.specs.Prelude.{◌≡◌, ◌<◌};
ghost use Rattle.network.specs.declared.Table.{Table};
ghost use Rattle.network.specs.Network.{topic_of};
ghost use Rattle.floodnet.specs.Step.{Stepped, answer_to};

use super::{Turned, links, messages, refusals};
use events::kind::Kind;
use events::{Event, Joining};
use network::{Message, Network, Peer, Refusal, Table};

pub(crate) fn produce(n: &mut Network, table: &Table, p: Peer, m: Message) -> Result<u32, Refusal>
    requires { (p.0 < 32) × (m.0 < 64) × ((topic_of table.now m).0 < 32) }
    ensures { Stepped n.old n.new table.now (Event.Produce p m) (answer_to (Event.Produce p m) result) }
{
    refusals::of_produce(n, table, p, m)?;
    messages::produce(n, p, m);
    Ok(0)
}

pub(crate) fn outcome_of_forward(
    n: &mut Network,
    table: &Table,
    p: Peer,
    m: Message,
) -> Result<u32, Refusal>
    requires { (p.0 < 32) × (m.0 < 64) × ((topic_of table.now m).0 < 32) }
    ensures { Stepped n.old n.new table.now (Event.Forward p m) (answer_to (Event.Forward p m) result) }
{
    refusals::of_forward(n, p, m)?;
    Ok(messages::forward(n, table, p, m))
}

// A forward with its kind, for the single forward.
pub fn forward(n: &mut Network, table: &Table, p: Peer, m: Message) -> Turned
    requires { (p.0 < 32) × (m.0 < 64) × ((topic_of table.now m).0 < 32) }
    ensures { Stepped n.old n.new table.now (Event.Forward p m) result }
{
    Turned {
        kind: Kind::Forward,
        outcome: outcome_of_forward(n, table, p, m),
    }
}

// (Subscribe and unsubscribe, here and in links.rt, are two rows of document 01's table: one function for both would take the event, the change and what it does
// to a word, and its promise would hold of any three that fit.)
pub(crate) fn subscribe(n: &mut Network, p: Peer, topics: u32) -> Result<u32, Refusal>
    requires { p.0 < 32 }
    ensures { (b : Table) → Stepped n.old n.new b (Event.Subscribe p topics) (answer_to (Event.Subscribe p topics) result) }
{
    refusals::of_topics(n, p)?;
    links::subscribe(n, p, topics);
    Ok(0)
}

pub(crate) fn unsubscribe(n: &mut Network, p: Peer, topics: u32) -> Result<u32, Refusal>
    requires { p.0 < 32 }
    ensures { (b : Table) → Stepped n.old n.new b (Event.Unsubscribe p topics) (answer_to (Event.Unsubscribe p topics) result) }
{
    refusals::of_topics(n, p)?;
    links::unsubscribe(n, p, topics);
    Ok(0)
}

pub(crate) fn leave(n: &mut Network, p: Peer) -> Result<u32, Refusal>
    requires { p.0 < 32 }
    ensures { (b : Table) → Stepped n.old n.new b (Event.Leave p) (answer_to (Event.Leave p) result) }
{
    refusals::of_leave(n, p)?;
    links::leave(n, p);
    Ok(0)
}

pub(crate) fn join(n: &mut Network, p: Peer, j: Joining) -> Result<u32, Refusal>
    requires { p.0 < 32 }
    ensures { (b : Table) → Stepped n.old n.new b (Event.Join p j) (answer_to (Event.Join p j) result) }
{
    refusals::of_join(n, p, j.neighbours)?;
    links::join(n, p, j);
    Ok(0)
}

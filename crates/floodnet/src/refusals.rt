// What the events ask (specs/Refusals.antt): the first condition that fails refuses the event. Each asks for presence itself, as its row of document 01's table
// does. (With `of_topics(n, p)?` in its place the check does not find `of_produce`.)
#![tactic(auto, using(crate::proofs::CodeRefusals::needs), unfolding(crate::specs::Refusals::refusal_produce, crate::specs::Refusals::refusal_forward, crate::specs::Refusals::refusal_topics, crate::specs::Refusals::refusal_leave, crate::specs::Refusals::refusal_join))]

ghost use Rattle.std.specs.Prelude.{◌≡◌, ◌<◌};
ghost use Rattle.network.specs.Network.{topic_of};
ghost use Rattle.network.specs.Refusal.{number};
ghost use Rattle.floodnet.specs.Produce.{is_new};
ghost use Rattle.floodnet.specs.Refusals.{refusal_produce, refusal_forward, refusal_topics, refusal_leave, refusal_join};

use super::arrays;
use network::{Message, Network, Peer, Refusal, Table};
use sets::Word;

// "Message m is new when no present peer has it pending or seen (004)."
fn is_new(n: &Network, m: Message) -> bool
    requires { m.0 < 64 }
    ensures { result ≡ is_new n.now m }
{
    arrays::lacking(&n.pending, &n.seen, n.present, m) == n.present
}

// Produce: 8, 10, 11, 12.
pub(crate) fn of_produce(n: &Network, table: &Table, p: Peer, m: Message) -> Result<(), Refusal>
    requires { (p.0 < 32) × (m.0 < 64) × ((topic_of table.now m).0 < 32) }
    ensures { number result ≡ refusal_produce n.now table.now p m }
{
    if !n.present.has(p.0 as u32) {
        return Err(Refusal::PeerAbsent);
    }
    if table.origins[m.0 as usize] != p.0 {
        return Err(Refusal::NotOrigin);
    }
    if !n.pubs[p.0 as usize].has(table.topic_of(m).0 as u32) {
        return Err(Refusal::NotPublished);
    }
    if !is_new(n, m) {
        return Err(Refusal::NotNew);
    }
    Ok(())
}

// Forward: 8, 13.
pub(crate) fn of_forward(n: &Network, p: Peer, m: Message) -> Result<(), Refusal>
    requires { (p.0 < 32) × (m.0 < 64) }
    ensures { number result ≡ refusal_forward n.now p m }
{
    if !n.present.has(p.0 as u32) {
        return Err(Refusal::PeerAbsent);
    }
    if !n.pending[p.0 as usize].has(m.0 as u32) {
        return Err(Refusal::NotPending);
    }
    Ok(())
}

// Subscribe and unsubscribe: 8.
pub(crate) fn of_topics(n: &Network, p: Peer) -> Result<(), Refusal>
    requires { p.0 < 32 }
    ensures { number result ≡ refusal_topics n.now p }
{
    if !n.present.has(p.0 as u32) {
        return Err(Refusal::PeerAbsent);
    }
    Ok(())
}

// Leave: 8, 14.
pub(crate) fn of_leave(n: &Network, p: Peer) -> Result<(), Refusal>
    requires { p.0 < 32 }
    ensures { number result ≡ refusal_leave n.now p }
{
    if !n.present.has(p.0 as u32) {
        return Err(Refusal::PeerAbsent);
    }
    if n.pending[p.0 as usize] != 0 {
        return Err(Refusal::StillPending);
    }
    Ok(())
}

// Join: 9, 15, 16.
pub(crate) fn of_join(n: &Network, p: Peer, who: u32) -> Result<(), Refusal>
    requires { p.0 < 32 }
    ensures { number result ≡ refusal_join n.now p who }
{
    if n.present.has(p.0 as u32) {
        return Err(Refusal::PeerPresent);
    }
    if who.has(p.0 as u32) {
        return Err(Refusal::NamesItself);
    }
    if who.minus(n.present) != 0 {
        return Err(Refusal::NamesAbsent);
    }
    Ok(())
}

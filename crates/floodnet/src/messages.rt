// What produce and forward do to the network (specs/Produce.antt, specs/Forward.antt).
ghost use Rattle.std.specs.Prelude.{◌≡◌, ◌<◌};
ghost use Rattle.network.specs.Network.{topic_of};
ghost use Rattle.floodnet.specs.Produce.{produced};
ghost use Rattle.floodnet.specs.Forward.{receivers, forwarded};

use super::arrays;
use network::{Message, Network, Peer, Table};
use sets::Word;

// m becomes pending at p.
#[tactic(auto, unfolding(crate::specs::Produce::produced))]
pub(crate) fn produce(n: &mut Network, p: Peer, m: Message)
    requires { (p.0 < 32) × (m.0 < 64) }
    ensures { n.new ≡ produced n.old p m }
{
    let i = p.0 as usize;
    n.pending[i] = n.pending[i].with(m.0 as u32);
}

// Forward of m by p: m moves from pending to seen at p, and becomes pending at the receivers, whose set is answered.
pub fn forward(n: &mut Network, table: &Table, p: Peer, m: Message) -> u32
    requires { (p.0 < 32) × (m.0 < 64) × ((topic_of table.now m).0 < 32) }
    ensures answer { result ≡ receivers n.old table.now p m }
    ensures state { n.new ≡ forwarded n.old table.now p m }
{
    let i = p.0 as usize;
    let b = m.0 as u32;
    n.pending[i] = n.pending[i].without(b);
    n.seen[i] = n.seen[i].with(b);
    let k = network::spot(p, table.topic_of(m));
    let near = n.known[k];
    let receivers = arrays::lacking(&n.pending, &n.seen, near, m);
    arrays::give(&mut n.pending, receivers, m);
    receivers
}

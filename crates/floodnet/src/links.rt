// What subscribe, unsubscribe, leave and join do to the network (specs/Topics.antt, specs/Links.antt).
ghost use Rattle.std.specs.Prelude.{◌≡◌, ◌<◌};
ghost use Rattle.floodnet.specs.Topics.{subscribed_to, unsubscribed_from};
ghost use Rattle.floodnet.specs.Links.{link_up, link_down, cleared, placed, left, joined};

use super::{arrays, rows};
use events::Joining;
use network::{Network, Peer};
use sets::Word;

// "Topics join subs; neighbours' records follow."
pub(crate) fn subscribe(n: &mut Network, p: Peer, topics: u32)
    requires { p.0 < 32 }
    ensures { n.new ≡ subscribed_to n.old p topics }
{
    let i = p.0 as usize;
    let b = p.0 as u32;
    n.subs[i] = n.subs[i].union(topics);
    rows::in_rows(&mut n.known, n.neighbours[i], topics, |w| w.with(b));
}

// "Topics leave subs; neighbours' records follow." (Why it is no one function with `subscribe`: turns.rt.)
pub(crate) fn unsubscribe(n: &mut Network, p: Peer, topics: u32)
    requires { p.0 < 32 }
    ensures { n.new ≡ unsubscribed_from n.old p topics }
{
    let i = p.0 as usize;
    let b = p.0 as u32;
    n.subs[i] = n.subs[i].minus(topics);
    rows::in_rows(&mut n.known, n.neighbours[i], topics, |w| w.without(b));
}

// Both sides record: p and each of `who` list each other, and know each other for their topics.
fn link_up(n: &mut Network, p: Peer, who: u32)
    requires { p.0 < 32 }
    ensures { n.new ≡ link_up n.old p who }
{
    let i = p.0 as usize;
    let b = p.0 as u32;
    n.neighbours[i] = n.neighbours[i].union(who);
    arrays::each(&mut n.neighbours, who, |w| w.with(b));
    rows::in_rows(&mut n.known, who, n.subs[i], |w| w.with(b));
    rows::learn(&mut n.known, p, &n.subs, who);
}

// Both sides forget: p and each of `who` neither list nor know each other.
fn link_down(n: &mut Network, p: Peer, who: u32)
    requires { p.0 < 32 }
    ensures { n.new ≡ link_down n.old p who }
{
    let i = p.0 as usize;
    let b = p.0 as u32;
    n.neighbours[i] = n.neighbours[i].minus(who);
    arrays::each(&mut n.neighbours, who, |w| w.without(b));
    rows::whole_rows(&mut n.known, who, |w| w.without(b));
    rows::whole_row(&mut n.known, p, |w| w.minus(who));
}

// "Record becomes zero."
fn clear(n: &mut Network, p: Peer)
    requires { p.0 < 32 }
    ensures { n.new ≡ cleared n.old p }
{
    let i = p.0 as usize;
    n.present = n.present.without(p.0 as u32);
    n.pubs[i] = 0;
    n.subs[i] = 0;
    n.neighbours[i] = 0;
    n.pending[i] = 0;
    n.seen[i] = 0;
    rows::whole_row(&mut n.known, p, |_| 0);
}

// p is present, with these topics.
#[tactic(auto, unfolding(crate::specs::Links::placed))]
fn place(n: &mut Network, p: Peer, subs: u32, pubs: u32)
    requires { p.0 < 32 }
    ensures { n.new ≡ placed n.old p subs pubs }
{
    let i = p.0 as usize;
    n.present = n.present.with(p.0 as u32);
    n.pubs[i] = pubs;
    n.subs[i] = subs;
}

// "Record becomes zero; neighbours drop the peer and its subscriptions."
#[tactic(auto, unfolding(crate::specs::Links::left))]
pub(crate) fn leave(n: &mut Network, p: Peer)
    requires { p.0 < 32 }
    ensures { n.new ≡ left n.old p }
{
    let who = n.neighbours[p.0 as usize];
    link_down(n, p, who);
    clear(n, p);
}

// "Record made with nothing pending or seen; both sides record link and subscriptions."
#[tactic(auto, unfolding(crate::specs::Links::joined))]
pub(crate) fn join(n: &mut Network, p: Peer, j: Joining)
    requires { p.0 < 32 }
    ensures { n.new ≡ joined n.old p j.subs j.pubs j.neighbours }
{
    clear(n, p);
    place(n, p, j.subs, j.pubs);
    link_up(n, p, j.neighbours);
}

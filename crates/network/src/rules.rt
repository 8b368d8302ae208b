// The rules of soundness as code: which rule a record breaks first, and the lowest peer or topic that breaks one (specs/Rules.antt;
// specs/Tests.antt has what is tested in place of a rule). The verdict on all records is verdict.rt.
ghost use Rattle.std.specs.Prelude.{◌≡◌, ℕ, ◌%◌, ◌<◌, eqb, get_or};
ghost use Rattle.sets.specs.Set.{set_of};
ghost use Rattle.sets.specs.Any.{all};
ghost use Rattle.network.specs.Refusal.{number};
ghost use Rattle.network.specs.Rules.{empty_right, back_right, absent_fault, present_fault, fault_of};
ghost use Rattle.network.specs.Tests.{Found, subscribers_of, joined_to, row_empty, near_absent, list_back, same_at, row_known};

use crate::{Network, Peer, Refusal, Topic, spot};
use sets::Word;

// "A peer is present when byte 0 is 1": the peers whose first word has 1 as its lowest byte.
#[tactic(auto, using(sets::proofs::laws::Build::fill_none, sets::proofs::laws::Build::fill_more), unfolding(sets::specs::Set::when, sets::specs::Set::puts))]
pub(crate) fn ones(heads: &[u32; 32]) -> u32
    ensures { result ≡ set_of 32 (λ (p : ℕ). eqb (get_or heads.now p 0 % 256) 1) }
{
    let mut r: u32 = 0;
    for (p, head) in heads.iter().enumerate() {
        if *head % 256 == 1 {
            r = r.with(p as u32);
        }
    }
    r
}

// Peer q joins the set of each of the topics.
fn join(to: &mut [u32; 32], topics: u32, q: Peer)
    requires { q.0 < 32 }
    ensures { to.new ≡ joined_to topics q.0 to.old }
{
    for t in topics.members() {
        to[t as usize] = to[t as usize].with(q.0 as u32);
    }
}

// The peers subscribed to each topic.
#[tactic(auto, using(crate::proofs::Gathering::subscribers_none, crate::proofs::Gathering::subscribers_more), unfolding(crate::specs::Tests::subscribers_of))]
pub(crate) fn subscribers(subs: &[u32; 32]) -> [u32; 32]
    ensures { result ≡ subscribers_of subs.now }
{
    let mut r = [0u32; 32];
    for q in 0..32 {
        join(&mut r, subs[q as usize], Peer(q));
    }
    r
}

// The row of p has no known subscribers. (Like the other tests here it asks for the words that it reads, and no network.) Every topic is asked, so that the compiler
// can ask many at once.
#[tactic(auto, using(crate::proofs::Steps::asking), unfolding(crate::specs::Tests::row_empty))]
fn row_empty(known: &[u32; 1024], p: Peer) -> bool
    requires { p.0 < 32 }
    ensures { result ≡ row_empty known.now p }
{
    let base = p.0 as usize * 32;
    let mut same = true;
    for t in 0..32 {
        if known[base + t] != 0 {
            same = false;
        }
    }
    same
}

// The lowest of the peers listed that is absent.
pub(crate) fn near_absent(listed: u32, present: u32) -> Option<u32>
    ensures { Found 32 result (near_absent listed present) }
{
    listed.minus(present).members().next()
}

// The lowest of the peers listed that doesn't list p: for the detail alone. (Those left stand in a word of 64 bits: some machines take the least
// from it in a step less, docs/BENCH.md.)
#[tactic(auto, using(sets::proofs::laws::Lowest::taken_below))]
pub(crate) fn list_back(neighbours: &[u32; 32], listed: u32, p: Peer) -> Option<u32>
    requires { p.0 < 32 }
    ensures { Found 32 result (list_back neighbours.now listed p) }
{
    for q in (listed as u64).members() {
        if !neighbours[q as usize].has(p.0 as u32) {
            return Some(q);
        }
    }
    None
}

// Each neighbour of p lists p: p is in what all their words have in common. It is list_back's question, asked of all at once, without a branch for each.
#[tactic(auto, using(sets::proofs::laws::Lowest::taken_below))]
fn listed_back(n: &Network, p: Peer) -> bool
    requires { p.0 < 32 }
    ensures { result ≡ back_right n.now p }
{
    let listed = n.neighbours[p.0 as usize];
    let mut common = u32::MAX;
    for q in (listed as u64).members() {
        common = common.meet(n.neighbours[q as usize]);
    }
    common.has(p.0 as u32)
}

// The row of p has, for each topic, the subscribers among the peers listed. Every topic is asked, so that the compiler can ask many at once.
#[tactic(auto, using(crate::proofs::Steps::asking))]
fn row_same(known: &[u32; 1024], subscribers: &[u32; 32], listed: u32, p: Peer) -> bool
    requires { p.0 < 32 }
    ensures { result ≡ all 32 (same_at known.now subscribers.now listed p) }
{
    let base = p.0 as usize * 32;
    let mut same = true;
    for t in 0..32 {
        if known[base + t] != subscribers[t].meet(listed) {
            same = false;
        }
    }
    same
}

// The lowest topic for which the row of p has other subscribers than those among the peers listed. It is for the detail alone: a test of
// the rule asks `row_same`, since the search, inlined, spoils the comparison by vectors. Both ask for the rows alone, and no network: the rows are what is
// compared.
#[tactic(auto, using(crate::proofs::Steps::looking), unfolding(crate::specs::Tests::row_known))]
pub(crate) fn row_known(
    known: &[u32; 1024],
    subscribers: &[u32; 32],
    listed: u32,
    p: Peer,
) -> Option<u32>
    requires { p.0 < 32 }
    ensures { Found 32 result (row_known known.now subscribers.now listed p) }
{
    if row_same(known, subscribers, listed, p) {
        return None;
    }
    for t in 0..32 {
        if known[spot(p, Topic(t))] != subscribers[t as usize].meet(listed) {
            return Some(t as u32);
        }
    }
    None
}

// The record of p is empty.
#[tactic(auto, unfolding(crate::specs::Rules::empty_right, crate::specs::Tests::row_empty))]
fn empty(n: &Network, p: Peer) -> bool
    requires { p.0 < 32 }
    ensures { result ≡ empty_right n.now p }
{
    let i = p.0 as usize;
    n.pubs[i] == 0
        && n.subs[i] == 0
        && n.neighbours[i] == 0
        && n.pending[i] == 0
        && n.seen[i] == 0
        && row_empty(&n.known, p)
}

// The fault of an absent record: it is not empty.
#[tactic(auto, unfolding(crate::specs::Rules::absent_fault, crate::specs::Rules::need))]
fn absent_fault(n: &Network, p: Peer) -> Result<(), Refusal>
    requires { p.0 < 32 }
    ensures { number result ≡ absent_fault n.now p }
{
    if empty(n, p) {
        return Ok(());
    }
    Err(Refusal::AbsentNotEmpty)
}

// The fault of a present record, `subscribers` being the peers subscribed to each topic. (A type for a network and its subscribers would hold both lent, and say
// between them what is a clause here and in two functions more: longer than the three.)
#[tactic(auto, using(crate::proofs::Steps::testing), unfolding(crate::specs::Rules::own_right, crate::specs::Rules::apart_right))]
fn present_fault(n: &Network, p: Peer, subscribers: &[u32; 32]) -> Result<(), Refusal>
    requires { (p.0 < 32) × (subscribers.now ≡ subscribers_of n.now.subs) }
    ensures { number result ≡ present_fault n.now p }
{
    let i = p.0 as usize;
    let listed = n.neighbours[i];
    if listed.has(p.0 as u32) {
        return Err(Refusal::OwnNeighbour);
    }
    if near_absent(listed, n.present).is_some() {
        return Err(Refusal::NeighbourAbsent);
    }
    if !listed_back(n, p) {
        return Err(Refusal::NotListedBack);
    }
    if !row_same(&n.known, subscribers, listed, p) {
        return Err(Refusal::KnownWrong);
    }
    if n.pending[i].meet(n.seen[i]) != 0 {
        return Err(Refusal::PendingSeen);
    }
    Ok(())
}

// The first rule that p's record breaks, its first word being `head`.
#[tactic(auto, unfolding(crate::specs::Rules::fault_of, crate::specs::Rules::need))]
pub(crate) fn fault(n: &Network, head: u32, p: Peer, subscribers: &[u32; 32]) -> Result<(), Refusal>
    requires { (p.0 < 32) × (subscribers.now ≡ subscribers_of n.now.subs) }
    ensures { number result ≡ fault_of head n.now p }
{
    match head {
        0 => absent_fault(n, p),
        1 => present_fault(n, p, subscribers),
        _ => Err(Refusal::BadHead),
    }
}

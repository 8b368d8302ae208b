// The drain by rounds, and demand 3 over the network (document 01, "Drain by rounds"; the minutes, demand 3).
//
// Read specs/Reach.antt: the client's page, demand 3 sentence by sentence over a sound network and its table. specs/Drain.antt says what a drain
// answers; specs/laws/ReachLaws.antt proves the page, specs/laws/ReachWords.antt has its words in flooding's. The functions here make the drain on
// the network that a caller lends; specs/Lent.antt has the words of their contracts, specs/Pairs.antt and specs/laws/Turns.antt what their loops
// keep. specs/AtOnce.antt and proofs/AtOnceForwards.antt: a peer's messages forwarded at once are its forwards one by one. A drain looks only at
// the messages that are pending when it begins and at their topics: it sorts them once (src/sorted.rt, proofs/Filing.antt), and no other message
// becomes pending (proofs/Within.antt).
#![tactic(auto)]

mod sorted; // sorted.rt: the messages of a drain by topic, and its rounds

ghost use Rattle.std.specs.Prelude.{◌≡◌, ◌^◌, ◌<◌, ◌≤◌, eqb};
ghost use Rattle.sets.specs.Set.{has, count};
ghost use Rattle.floodnet.specs.Lent.{with_messages};
ghost use Rattle.drain.specs.Pairs.{waiting_of, empty_words};
ghost use Rattle.drain.specs.AtOnce.{TopicsFit, anywhere_of};
ghost use Rattle.drain.specs.Lent.{DrainsTo};

use network::{Network, Table};
use sets::Word;
use sorted::Sorted;

// What a drain answers: "the forwards made, the rounds finished, and whether nothing is pending".
#[derive(Clone, Copy)]
pub struct Drains {
    pub forwards: u32,
    pub rounds: u32,
    pub quiet: bool,
}

// How many messages a word has; and a word fits, which a caller that has read it from an array is told here. Most words of most drains
// are empty, and a count of ones takes a dozen steps.
#[tactic(auto, using(sets::proofs::laws::Counts::size_count, sets::proofs::laws::Sizes::size_none))]
fn how_many(w: u64) -> u32
    ensures { (result ≡ count 64 (has w)) × (result ≤ 64) × (w < 2 ^ 64) }
{
    if w == 0 {
        return 0; // a count
    }
    w.size()
}

// How many pairs are pending.
#[tactic(auto, using(sets::proofs::laws::Sums::sum_start, sets::proofs::laws::Sums::sum_more, sets::proofs::laws::Any::all_start, sets::proofs::laws::Any::all_more, crate::specs::laws::Pairs::empty_more), unfolding(crate::specs::Pairs::waiting_of))]
fn waiting(pending: &[u64; 32]) -> u32
    ensures count { result ≡ waiting_of pending.now }
    ensures none { eqb result 0 ≡ empty_words pending.now }
{
    let mut total: u32 = 0;
    for w in pending {
        total += how_many(*w);
    }
    total
}

// Every message that is pending somewhere. (broadcastnet's `underway` is the same walk, and says why there are two.)
#[tactic(auto, unfolding(crate::specs::AtOnce::anywhere_of))]
fn anywhere(pending: &[u64; 32]) -> u64
    ensures { result ≡ anywhere_of pending.now 32 }
{
    let mut all: u64 = 0;
    for w in pending {
        all = all.union(*w);
    }
    all
}

// Rounds while something is pending and the budget lasts.
pub fn drain_all(n: &mut Network, table: &Table, budget: u32) -> Drains
    requires { TopicsFit table.now.topics }
    ensures drains { DrainsTo n.old.known table.now.topics n.old.pending n.old.seen budget
        n.new.pending n.new.seen result }
    ensures others { n.new ≡ with_messages n.old n.new.pending n.new.seen n.old.known }
{
    let sorted = Sorted::new(table, anywhere(&n.pending));
    let mut made: u32 = 0;
    let mut rounds: u32 = 0;
    let mut due = waiting(&n.pending);
    'rounds: while due != 0 && made < budget {
        let k = sorted.drain_round(n, budget - made);
        made += k;
        if k == due {
            rounds += 1; // a count of what is finished, no index
        }
        due = waiting(&n.pending);
    }
    Drains {
        forwards: made,
        rounds,
        quiet: due == 0,
    }
}

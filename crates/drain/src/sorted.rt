// The messages that a drain looks at, sorted by topic, and its rounds over them.
ghost use Rattle.std.specs.Prelude.{◌≡◌, ◌^◌, ◌<◌, length, take};
ghost use Rattle.lists.specs.Edit.{edit};
ghost use Rattle.flooding.specs.Machine.{run};
ghost use Rattle.floodnet.specs.View.{fwd};
ghost use Rattle.drain.specs.Pairs.{pairs_of, list_of};
ghost use Rattle.drain.specs.AtOnce.{TopicsFit, topics_of, ByTopic, OwnTopics, AllFiled, EachFiled, gives};

use super::how_many;
use floodnet::messages;
use network::{Message, Network, Peer, Table};
use sets::Word;

// The topics of the messages of s.
fn topics_of(table: &Table, s: u64) -> u32
    requires { TopicsFit table.now.topics }
    ensures { result ≡ topics_of table.now.topics s }
{
    let mut r: u32 = 0;
    for m in s.members() {
        r = r.with(table.topics[m as usize] as u32);
    }
    r
}

// The messages of s, those of each topic in a word.
fn by_topic(table: &Table, s: u64) -> [u64; 32]
    requires { TopicsFit table.now.topics }
    ensures { ByTopic table.now.topics s result }
{
    let mut r = [0u64; 32];
    for m in s.members() {
        let t = table.topics[m as usize] as usize;
        r[t] = r[t].with(m);
    }
    r
}

// The messages of w become pending at each peer of s that has not seen them. (A word of 64 bits for those left: floodnet's src/arrays.rt.)
#[tactic(auto, using(sets::proofs::laws::Lowest::taken_below))]
fn give_set(pending: &mut [u64; 32], seen: &[u64; 32], s: u32, w: u64)
    ensures pending_after { pending.new ≡ edit (gives w seen.now s) pending.old }
    ensures s_bound { s < 2 ^ 32 }
{
    for q in (s as u64).members() {
        let i = q as usize;
        pending[i] = pending[i].union(w.minus(seen[i]));
    }
}

// A message table, and messages sorted by its topics: those of each topic in a word, and the topics that have any. (That what is to be forwarded is among
// those sorted, `AllFiled` and `EachFiled`, is a fact of the network, too, which a drain changes: it is a clause, and no ghost field. `TopicsFit` is one of
// the table, which holds any columns.)
#[derive(Drop)]
pub(crate) struct Sorted<'a> {
    table: &'a Table,
    words: [u64; 32],
    used: u32,
    ghost used_fits: { used < 2 ^ 32 },
    ghost topics_fit: { TopicsFit table.now.topics },
    ghost own_topics: { OwnTopics table.now.topics words },
}

impl<'a> Sorted<'a> {
    // The messages of s, sorted.
    pub(crate) fn new(table: &'a Table, s: u64) -> Self
        requires { TopicsFit table.now.topics }
        ensures by_table { result.table.now ≡ table.now }
        ensures filed { AllFiled result.table.now.topics result.words result.used s }
    {
        Sorted {
            table,
            words: by_topic(table, s),
            used: topics_of(table, s),
        }
    }

    // Forwards all messages of `todo` at p, at once: those of one topic together, of the topics used alone. (A row's place is written out, as in network's loops.)
    fn forward_set(&self, n: &mut Network, p: Peer, todo: u64)
        requires p_bound { p.0 < 32 }
        requires filed { AllFiled self.now.table.now.topics self.now.words self.now.used todo }
        ensures { n.new ≡ run (fwd self.now.table.now) n.old (pairs_of p.0 todo 64) }
    {
        let i = p.0 as usize;
        n.pending[i] = n.pending[i].minus(todo);
        n.seen[i] = n.seen[i].union(todo);
        for t in self.used.members() {
            let w = todo.meet(self.words[t as usize]);
            if w != 0 {
                give_set(&mut n.pending, &n.seen, n.known[i * 32 + t as usize], w);
            }
        }
    }

    // Forwards the messages of `todo` at p, the least first, while `left` of the budget lasts; answers how many. All at
    // once where the budget has them all.
    fn drain_peer(&self, n: &mut Network, p: Peer, todo: u64, left: u32) -> u32
        requires p_bound { p.0 < 32 }
        requires filed { AllFiled self.now.table.now.topics self.now.words self.now.used todo }
        ensures made { result ≡ length (take left (pairs_of p.0 todo 64)) }
        ensures leads { n.new ≡ run (fwd self.now.table.now) n.old (take left (pairs_of p.0 todo 64)) }
    {
        if todo == 0 {
            return 0; // a count
        }
        let all = how_many(todo);
        if all <= left {
            self.forward_set(n, p, todo);
            return all;
        }
        for m in todo.members().take(left as usize) {
            messages::forward(n, self.table, p, Message(m as u8));
        }
        left
    }

    // One round, while `left` of the budget lasts: "forwards every pair that was pending when the round began [..] what becomes pending
    // meanwhile waits". The peers in turn; answers how many pairs were forwarded.
    pub(crate) fn drain_round(&self, n: &mut Network, left: u32) -> u32
        requires { EachFiled self.now.table.now.topics self.now.words self.now.used n.old.pending }
        ensures made { result ≡ length (take left (list_of n.old.pending 32)) }
        ensures leads { n.new ≡ run (fwd self.now.table.now) n.old
            (take left (list_of n.old.pending 32)) }
    {
        let listed = n.pending;
        let mut made: u32 = 0;
        for p in 0..32 {
            let todo = listed[p as usize];
            made += self.drain_peer(n, Peer(p), todo, left - made);
        }
        made
    }
}

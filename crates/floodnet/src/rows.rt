// Loops over rows of `known`, the lent array of 32 rows of 32 words: the word of topic t at peer q stands at q * 32 + t (`network::spot`).
// What f makes of it becomes of each word that is visited; the loops differ in which those are. The loops' turns are laws of
// proofs/CodeRows.antt and proofs/CodeWalks.antt.
ghost use Rattle.std.specs.Prelude.{◌≡◌, ℕ, ◌&&◌, ◌/◌, ◌%◌, ◌<◌, eqb};
ghost use Rattle.sets.specs.Set.{has, when};
ghost use Rattle.lists.specs.Edit.{edit};
ghost use Rattle.floodnet.specs.Lent.{learnt, Makes};

use network::{Peer, Topic};
use sets::Word;

// The words of these topics in a row.
fn in_row<F: Fn(u32) -> u32>(known: &mut [u32; 1024], row: Peer, topics: u32, f: F)
    requires always { F.IsAlwaysCallable f }
    requires row { row.0 < 32 }
    ensures { (h : ℕ → ℕ) → Makes (F.post f) h → known.new ≡ edit (λ i. when (eqb (i / 32) row.0 && has topics (i % 32)) h) known.old }
{
    for t in topics.members() {
        let k = network::spot(row, Topic(t as u8));
        known[k] = f(known[k]);
    }
}

// All words of a row. (No `in_row` of all topics: there is no word to take members from, and many words are done at once.)
pub(crate) fn whole_row<F: Fn(u32) -> u32>(known: &mut [u32; 1024], row: Peer, f: F)
    requires always { F.IsAlwaysCallable f }
    requires row { row.0 < 32 }
    ensures { (h : ℕ → ℕ) → Makes (F.post f) h → known.new ≡ edit (λ i. when (eqb (i / 32) row.0) h) known.old }
{
    for t in 0..32 {
        let k = network::spot(row, Topic(t));
        known[k] = f(known[k]);
    }
}

// The words of these topics in the rows of `who`.
pub(crate) fn in_rows<F: Fn(u32) -> u32>(known: &mut [u32; 1024], who: u32, topics: u32, f: F)
    requires { F.IsAlwaysCallable f }
    ensures { (h : ℕ → ℕ) → Makes (F.post f) h → known.new ≡ edit (λ i. when (has who (i / 32) && has topics (i % 32)) h) known.old }
{
    for q in who.members() {
        in_row(known, Peer(q as u8), topics, &f);
    }
}

// All words of the rows of `who`. (Beside `in_rows` for the reason at `whole_row`.)
pub(crate) fn whole_rows<F: Fn(u32) -> u32>(known: &mut [u32; 1024], who: u32, f: F)
    requires { F.IsAlwaysCallable f }
    ensures { (h : ℕ → ℕ) → Makes (F.post f) h → known.new ≡ edit (λ i. when (has who (i / 32)) h) known.old }
{
    for q in who.members() {
        whole_row(known, Peer(q as u8), &f);
    }
}

// p knows each of `who` for each of its topics. (The two arrays that it reads and fills, as the loops above: no network.)
pub(crate) fn learn(known: &mut [u32; 1024], p: Peer, subs: &[u32; 32], who: u32)
    requires { p.0 < 32 }
    ensures { known.new ≡ edit (learnt p.0 subs.now who) known.old }
{
    for q in who.members() {
        in_row(known, p, subs[q as usize], |w| w.with(q));
    }
}

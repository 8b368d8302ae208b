// Loops over a lent array of 32 words, one for each peer: the members of a set are visited, the least first, and nobody else. The
// loops' turns are laws of the crates below: `Visit` (sets, proofs/laws/Visits.antt) for a set that is found, `Visiting` (lists,
// specs/laws/Visit.antt) for an array that is changed. Each loop has as many turns as there are members.
// A forward keeps those left in a word of 64 bits, from which some machines take the least in a step less (docs/BENCH.md).
ghost use Rattle.std.specs.Prelude.{◌≡◌, ℕ, ◌<◌};
ghost use Rattle.sets.specs.Set.{has, minus, only, when, puts, sift};
ghost use Rattle.sets.specs.Rising.{members};
ghost use Rattle.lists.specs.Edit.{edit};
ghost use Rattle.lists.specs.Visit.{visits};
ghost use Rattle.floodnet.specs.Lent.{holding, Makes};

use network::{Message, Peer};
use sets::Word;

// Those of s that have m neither pending nor seen: the members of s are visited, and no branch depends on who holds what. (The loops here take the arrays
// that they read or change, and no network: they say nothing of the others.)
#[tactic(auto, using(sets::proofs::laws::Lowest::taken_below))]
pub(crate) fn lacking(pending: &[u64; 32], seen: &[u64; 32], s: u32, m: Message) -> u32
    requires { m.0 < 64 }
    ensures { result ≡ minus s (sift 32 s (holding pending.now seen.now m.0)) }
{
    let i = m.0 as u32;
    let mut r: u32 = 0;
    for q in (s as u64).members() {
        let words = pending[q as usize].union(seen[q as usize]);
        r = r.with_if(q, !words.has(i));
    }
    r
}

// m becomes pending at each peer of r: "take the receiving set's lowest member, found by the count of trailing zeros, until the set
// is empty" (document 02, E4).
#[tactic(auto, using(sets::proofs::laws::Lowest::taken_below))]
pub(crate) fn give(pending: &mut [u64; 32], r: u32, m: Message)
    requires { m.0 < 64 }
    ensures { pending.new ≡ visits (λ q. puts (only m.0)) (members 32 r) pending.old }
{
    let i = m.0 as u32;
    for q in (r as u64).members() {
        pending[q as usize] = pending[q as usize].with(i);
    }
}

// What f makes of it becomes of the word of each of `who`.
pub(crate) fn each<F: Fn(u32) -> u32>(words: &mut [u32; 32], who: u32, f: F)
    requires { F.IsAlwaysCallable f }
    ensures { (h : ℕ → ℕ) → Makes (F.post f) h → words.new ≡ edit (λ q. when (has who q) h) words.old }
{
    for q in who.members() {
        words[q as usize] = f(words[q as usize]);
    }
}

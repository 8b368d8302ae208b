// The bytes of one record (specs/Storing.antt).
ghost use Rattle.std.specs.Prelude.{◌≡◌, ℕ, ◌<◌, length, get_or};
ghost use Rattle.sets.specs.Set.{has, digit};
ghost use Rattle.lists.specs.Tab.{tab};
ghost use Rattle.network.specs.Network.{topic, spot, pubs_of, subs_of, neighbours_of, pending_of, seen_of};
ghost use Rattle.network.specs.Rules.{head_of};
ghost use Rattle.network.specs.Storing.{put_head, put_row};

use crate::{Network, Peer};
use endian::Little;
use sets::Word;

// The first word of p's record: 1 where p is present.
fn head(n: &Network, p: Peer) -> u32
    requires { p.0 < 32 }
    ensures { result ≡ head_of n.now p }
{
    u32::from(n.present.has(p.0 as u32))
}

// The first words of all records: 1 at each member of `present`, 0 elsewhere.
pub(crate) fn heads(present: u32) -> [u32; 32]
    ensures { result ≡ tab 32 (λ (p : ℕ). digit (has present p)) }
{
    let mut r = [0u32; 32];
    for p in present.members() {
        r[p as usize] = 1;
    }
    r
}

// The words of record p up to its known subscribers.
#[tactic(auto, unfolding(crate::specs::Storing::put_head))]
pub(crate) fn words(state: &mut [u8], n: &Network, p: Peer)
    requires { (length state.old ≡ 5120) × (p.0 < 32) }
    ensures { state.new ≡ put_head state.old p.0 (head_of n.now p) (pubs_of n.now p) (subs_of n.now p) (neighbours_of n.now p) (pending_of n.now p) (seen_of n.now p) }
{
    let i = p.0 as usize;
    let at = 160 * i;
    head(n, p).put(&mut *state, at);
    n.pubs[i].put(&mut *state, at + 4);
    n.subs[i].put(&mut *state, at + 8);
    n.neighbours[i].put(&mut *state, at + 12);
    n.pending[i].put(&mut *state, at + 16);
    n.seen[i].put(&mut *state, at + 24);
}

// The known subscribers of p, from the words that have them.
#[tactic(auto, using(crate::proofs::Steps::filling))]
pub(crate) fn row_of(known: &[u32; 1024], p: Peer) -> [u32; 32]
    requires { p.0 < 32 }
    ensures { result ≡ tab 32 (λ (t : ℕ). get_or known.now (spot p (topic t)) 0) }
{
    let base = p.0 as usize * 32;
    let mut r = [0u32; 32];
    for (t, w) in r.iter_mut().enumerate() {
        *w = known[base + t];
    }
    r
}

// The known subscribers of record p, passed by value.
#[tactic(auto, using(endian::specs::laws::Le::length_put_le, crate::specs::laws::Storing::put_row_more), unfolding(crate::specs::Storing::put_row))]
pub(crate) fn row(state: &mut [u8], row: [u32; 32], p: Peer)
    requires { (length state.old ≡ 5120) × (p.0 < 32) }
    ensures { state.new ≡ put_row 32 state.old row p.0 }
{
    let i = p.0 as usize;
    for (t, w) in row.iter().enumerate() {
        (*w).put(&mut *state, 160 * i + 32 + 4 * t);
    }
}

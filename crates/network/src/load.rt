// The words of a state, column by column: each function reads one field of all 32 records (specs/State.antt).
ghost use Rattle.std.specs.Prelude.{◌≡◌, ℕ, ◌+◌, ◌*◌, ◌<◌};
ghost use Rattle.lists.specs.Tab.{tab};
ghost use Rattle.network.specs.State.{word_in, long_in, known_in};
ghost use Rattle.network.specs.Layout.{RowStored};

use crate::Peer;
use endian::Little;

// Word j of each record. (`array::from_fn` was tried: the check does not find its promise, as it does the loop's.)
#[tactic(auto, using(crate::proofs::Steps::filling), unfolding(crate::specs::State::word))]
pub(crate) fn words(state: &[u8; 5120], j: usize) -> [u32; 32]
    requires { j < 40 }
    ensures { result ≡ tab 32 (λ (p : ℕ). word_in state.now p j) }
{
    let mut r = [0u32; 32];
    for (p, w) in r.iter_mut().enumerate() {
        *w = u32::read(state, 4 * (40 * p + j));
    }
    r
}

// The 8-byte number at words j and j + 1 of each record. (Beside `words`: an item of a generic array is no number in a clause, and one function for
// both would say of each item which it is, which is longer than the two.)
#[tactic(auto, using(crate::proofs::Steps::filling), unfolding(crate::specs::State::long))]
pub(crate) fn longs(state: &[u8; 5120], j: usize) -> [u64; 32]
    requires { j < 39 }
    ensures { result ≡ tab 32 (λ (p : ℕ). long_in state.now p j) }
{
    let mut r = [0u64; 32];
    for (p, w) in r.iter_mut().enumerate() {
        *w = u64::read(state, 4 * (40 * p + j));
    }
    r
}

// The known subscribers of record p.
#[tactic(auto, using(crate::proofs::Steps::filling), unfolding(crate::specs::State::word))]
fn row(state: &[u8; 5120], p: Peer) -> [u32; 32]
    requires { p.0 < 32 }
    ensures { result ≡ tab 32 (λ (t : ℕ). word_in state.now p.0 (8 + t)) }
{
    let i = p.0 as usize;
    let mut r = [0u32; 32];
    for (t, w) in r.iter_mut().enumerate() {
        *w = u32::read(state, 4 * (40 * i + (8 + t)));
    }
    r
}

// Stores row p, the rows before it being there. (The place is written out, as `RowStored` has it.) The row is passed by value, so that the compiler sees that it is not part of `known`.
#[tactic(auto, using(crate::proofs::Steps::storing))]
fn put_row(known: &mut [u32; 1024], p: Peer, row: [u32; 32])
    requires { p.0 < 32 }
    ensures { RowStored 32 p.0 row known.old known.new }
{
    let i = p.0 as usize;
    for (t, w) in row.iter().enumerate() {
        known[32 * i + t] = *w;
    }
}

// Reads the known subscribers of all records into a lent array.
#[tactic(auto, using(crate::proofs::Steps::filling))]
pub(crate) fn fill_known(state: &[u8; 5120], known: &mut [u32; 1024])
    ensures { known.new ≡ tab 1024 (known_in state.now) }
{
    for p in 0..32 {
        put_row(&mut *known, Peer(p), row(state, Peer(p)));
    }
}

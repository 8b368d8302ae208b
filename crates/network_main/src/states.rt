// The sound states that the cases damage. Peers 0, 1 and 31 make one network, 31 alone makes another.
use network::Network;

// Peers 0, 1 and 31; 0 is linked to both others.
//   0: pubs {0}, subs {1}, pending {5}, seen {6}; 1: subs {0}, pending {0}, seen {1}; 31: pubs {31}, subs {0, 31}, pending {63}, seen {0}.
pub(crate) fn linked() -> Network {
    let mut n = Network::blank();
    n.present = 0x8000_0003;
    n.pubs[0] = 1;
    n.pubs[31] = 0x8000_0000;
    n.subs[0] = 2;
    n.subs[1] = 1;
    n.subs[31] = 0x8000_0001;
    n.neighbours[0] = 0x8000_0002;
    n.neighbours[1] = 1;
    n.neighbours[31] = 1;
    n.pending[0] = 32;
    n.pending[1] = 1;
    n.pending[31] = 0x8000_0000_0000_0000;
    n.seen[0] = 64;
    n.seen[1] = 2;
    n.seen[31] = 1;
    n.known[0] = 0x8000_0002;
    n.known[31] = 0x8000_0000;
    n.known[33] = 1;
    n.known[993] = 1;
    n
}

// The bytes of `linked`, set one by one at the places that document 01 gives a peer record.
pub(crate) fn linked_by_hand() -> [u8; 5120] {
    let mut b = [0u8; 5120];
    b[0] = 1;
    b[4] = 1;
    b[8] = 2;
    b[12] = 2;
    b[15] = 128;
    b[16] = 32;
    b[24] = 64;
    b[32] = 2;
    b[35] = 128;
    b[159] = 128;
    b[160] = 1;
    b[168] = 1;
    b[172] = 1;
    b[176] = 1;
    b[184] = 2;
    b[196] = 1;
    b[4960] = 1;
    b[4967] = 128;
    b[4968] = 1;
    b[4971] = 128;
    b[4972] = 1;
    b[4983] = 128;
    b[4984] = 1;
    b[4996] = 1;
    b
}

// Peer 31 alone: pubs {31}, subs {0, 31}, pending {63}, seen {0}.
pub(crate) fn alone() -> Network {
    let mut n = Network::blank();
    n.present = 0x8000_0000;
    n.pubs[31] = 0x8000_0000;
    n.subs[31] = 0x8000_0001;
    n.pending[31] = 0x8000_0000_0000_0000;
    n.seen[31] = 1;
    n
}

// What stands where a case reads into: not blank, and no case reads it.
pub(crate) fn before() -> Network {
    let mut n = linked();
    n.pending[31] = 2;
    n
}

// The bytes of a sound network; 238 in every byte where it is refused.
pub(crate) fn bytes(n: &Network) -> [u8; 5120] {
    let mut b = [238u8; 5120];
    let _ = n.write(&mut b);
    b
}

// The bytes, of a state or of a table, with x as byte `at`; the same bytes if there is no byte `at`.
pub(crate) fn set<const N: usize>(bytes: [u8; N], at: usize, x: u8) -> [u8; N] {
    let mut b = bytes;
    if at < N {
        b[at] = x;
    }
    b
}

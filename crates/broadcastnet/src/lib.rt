// Broadcastnet, the published model's specification of a relay (document 004), and the commitment map to it (document 01,
// "Commitment map"): a network without neighbours, in which a message is at once with all who receive it.
//
// It promises demand 2's second sentence, "Seen through the commitment map, it is one Broadcastnet step or no change, as
// tabled", for every sound network, every message table and every accepted event, and over lists of events: read
// specs/Page.antt from top to bottom. The words it uses are in specs/Broadcast.antt (states and steps, each beside its name
// in 004) and specs/Commit.antt (the image). proofs/laws/Refines.antt proves the page; proofs/laws/CommitLaws.antt has the image in
// observations, proofs/laws/ImageNet.antt that the image is written as a sound network. docs/REFINEMENT.md compares with 004.
//
// The code works out the image of a network, as it is written.
#![tactic(auto)]

ghost use Rattle.std.specs.Prelude.{◌≡◌};
ghost use Rattle.broadcastnet.specs.Commit.{together, without, image_net};

use network::Network;
use sets::Word;

// The messages that are pending at any peer. (The drain has the same walk, over the words of its own specs/AtOnce.antt. To share it would take a
// public function there, a law that the two definitions are one, and the crate drain below this one: more than the four lines.)
#[tactic(auto, unfolding(crate::specs::Commit::together))]
pub fn underway(pending: &[u64; 32]) -> u64
    ensures { result ≡ together 32 pending.now }
{
    let mut w: u64 = 0;
    for had in pending {
        w = w.union(*had);
    }
    w
}

// Each set without the messages of w. (A loop, as network's src/load.rt has them.)
#[tactic(auto, using(lists::specs::laws::Tab::filled_none, lists::specs::laws::Tab::filled_more, crate::proofs::laws::CommitLaws::without_filled))]
pub fn settled(seen: &[u64; 32], w: u64) -> [u64; 32]
    ensures { result ≡ without w seen.now }
{
    let mut r = [0; 32];
    for (q, had) in seen.iter().enumerate() {
        r[q] = (*had).minus(w);
    }
    r
}

// "The image keeps presence, pubs and subs, and from every seen set removes each message pending at any peer"; "neighbours,
// pending and known subscribers are zero".
#[tactic(auto, using(crate::proofs::laws::CommitLaws::image_net_made))]
pub fn image(n: &Network) -> Network
    ensures { result ≡ image_net n.now }
{
    Network {
        present: n.present,
        pubs: n.pubs,
        subs: n.subs,
        neighbours: [0; 32],
        pending: [0; 32],
        seen: settled(&n.seen, underway(&n.pending)),
        known: [0; 1024],
    }
}

// The theory of flooding: what becomes of a network when only accepted forwards follow. It has no code.
//
// It promises demand 3 of the minutes for any number of peers and messages, and for any state that shows such a network:
// read specs/Page.antt from top to bottom. The words it uses are in specs/Network.antt (a network, a forward, a chain),
// specs/Counts.antt (unseen pairs, pending pairs, deliveries) and specs/Machine.antt (runs, rounds, the drain, and what is
// asked of a concrete state). proofs/laws/Floods.antt, Drain.antt and Settled.antt prove the page; proofs/laws/Loop.antt has laws for the
// loops of a drain.
#![tactic(auto)]

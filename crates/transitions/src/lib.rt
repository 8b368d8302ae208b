// The seven events, as a client sees them (demand 2 of the minutes, first sentence). It has no code.
//
// It promises, of every sound network and every table of accepted rows, by which number each kind of event is refused, exactly if what, and
// what each observation is afterwards, exactly if what: read specs/Page.antt from top to bottom, and, for who receives a forward (document 02, E2),
// specs/Receivers.antt. It stands apart from floodnet, whose definitions it speaks of, so that an edit there does not pay for these proofs. The
// engine's page of a run says it of every network on the way.
#![tactic(auto)]

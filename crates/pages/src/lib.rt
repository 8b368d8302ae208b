// What the entry points promise on bytes, as a client reads it: a page for each demand (the minutes). It has no code.
//
// specs/StartPage.antt: the refusals before any event, each exactly if what. specs/FaultPage.antt: an unsound state, which rule of which record it breaks
// first (document 02, E1). specs/RunPage.antt: a run (demands 1 and 2, the tally). specs/UntouchedPage.antt: what the other entry points answer and leave
// where they refuse. specs/ReceiversPage.antt: who receives what a single forward sends (document 02, E2). specs/VisitsPage.antt: whom it visits, in which
// order, and how few (E4). specs/ImagePage.antt: the images along a run.
// specs/ReachPage.antt: forwards that a host makes in any order, by a run or one by one, and what the drain leaves (demand 3; its words and its theorem
// are drain's specs/Reach.antt). Each is proved of whatever satisfies the promise of the entry point, and of nothing else. The other files prove them.
#![tactic(auto)]

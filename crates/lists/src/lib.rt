// Lists of numbers that are made or changed place by place: `tab n f` is f 0 to f (n - 1), and `edit f l` is l with
// f i put to the number at each place i; `visits f places l` is the same at some places, one after the other. It has no code: a loop over
// an array keeps `Filled`, an `edit` or `Visiting` (specs/laws/Visit.antt), and a contract then says what the whole array is by one equation.
// Read specs/Tab.antt, then specs/Edit.antt and specs/Visit.antt.
#![tactic(auto)]

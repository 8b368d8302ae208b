// A test program over the crate `network`: it reads, damages and writes states and tables, and prints what document 01 says for each
// refusal ("Records" for the rules, "Numbers returned" 1, 2 and 4), and document 02's E1 for an unsound state.
//
// A line says what was damaged, then the number and the place of the answer (and of a state the detail), then what was left behind:
// `blank` (a refused read answers the blank state), `untouched` (a refused write leaves its buffer), `same` (read and written back),
// `as given` (set byte by byte in this program), `zeros` (a refused table). The file `stdout` beside src/ has each line as it has to be,
// worked out by hand. The rules go by their numbers:
//   20 the first four bytes, 21 absent and not empty, 22 own neighbour, 23 a neighbour absent, 24 a neighbour that does not list back,
//   25 known subscribers, 26 pending also seen.
// A line that can't be written ends the program with that error.
//
// Read on: states (the sound states), reads, writes, tables (the cases), print (a line).
#![tactic(auto)]

mod print;
mod reads;
mod states;
mod tables;
mod writes;

use std::io;

fn main(rt: HostRuntime) -> io::Result<()> {
    reads::accepted(&rt)?;
    reads::lengths(&rt)?;
    reads::rule_20(&rt)?;
    reads::rule_21(&rt)?;
    reads::rule_22(&rt)?;
    reads::rule_23(&rt)?;
    reads::rule_24(&rt)?;
    reads::rule_25(&rt)?;
    reads::rule_26(&rt)?;
    reads::lowest(&rt)?;
    reads::lowest_detail(&rt)?;
    writes::accepted(&rt)?;
    writes::lengths(&rt)?;
    writes::rule_21(&rt)?;
    writes::rule_22(&rt)?;
    writes::rule_23(&rt)?;
    writes::rule_24(&rt)?;
    writes::rule_25(&rt)?;
    writes::rule_26(&rt)?;
    tables::accepted(&rt)?;
    tables::lengths(&rt)?;
    tables::rows(&rt)
}

// What the run program prints for its input (document 01, "The run program"): the input's bytes are a state, a table and events; they are
// run by the engine, and the lines go into a lent buffer.
//
// What it promises: `answer` writes exactly the bytes of `flood_of` (specs/Console.antt) to the front of the buffer, leaves the bytes behind
// them as they were, and answers how many it wrote. Nothing is asked of its caller: a buffer below 1,024 bytes is left as it was and the answer
// is 0, and what is printed is never longer. So the program only reads and writes.
//
// Read on: specs/Console.antt; its laws in proofs/ConsoleLaws.antt, among them 01's short inputs and the tie to the engine's run.
#![tactic(auto)]

ghost use Rattle.network.specs.Refusal.{number_of};
ghost use Rattle.console.specs.Console.{refused_text, text_of, flood_of, Printed};

use engine::Tally;
use network::{Network, Refusal};

// Refused before any event: the first line alone. (The buffer is lent on, here and below, as `answer` has it.)
fn refused(refusal: Refusal, place: usize, out: &mut [u8]) -> usize
    ensures { Printed (refused_text (number_of refusal) place) out.old out.new result }
{
    report::report(u8::from(refusal), place, 0, &Network::blank(), false, out)
}

// The run on the three parts, in a tally of its own.
fn run(state: &[u8], table: &[u8], events: &[u8], out: &mut [u8]) -> usize
    ensures { Printed (text_of state.now table.now events.now) out.old out.new result }
{
    let mut begun = match engine::start::begin(state, table, events.len()) {
        Err(e) => return refused(e.refusal, e.place, out),
        Ok(begun) => begun,
    };
    let mut tally = Tally::default();
    let answer = engine::running::run_events(&mut begun.network, &begun.table, events, &mut tally);
    let show = report::shown(answer.number);
    report::report(
        answer.number,
        answer.place,
        answer.accepted,
        &begun.network,
        show,
        out,
    )
}

// What the program prints for its input, into what is lent (no heap); answers its length.
pub fn answer(input: &[u8], out: &mut [u8]) -> usize
    ensures { Printed (flood_of input.now) out.old out.new result }
{
    if input.len() > 65536 {
        return refused(Refusal::InputLength, 0, out);
    }
    let middle = input.len().min(5120);
    let last = input.len().min(5376);
    run(&input[0..middle], &input[middle..last], &input[last..], out)
}

// The engine for C: the static library that a host links (host/relay.h declares it for C, host/src/interface.rs for Rust). It exports
// relay_run, relay_forward, relay_drain, relay_image, relay_check and relay_copy. A slice comes from C as a pointer and a length; what C
// owes for it is said in host/relay.h.
//
// What it promises: each export has the contract of the crate engine's function of the same name, word for word, and only hands on to it.
// The records that cross are engine's and network's own.
//
// Read on: the crate engine, where the contracts and their definitions stand; the crate pages has what follows from them, on bytes.
#![tactic(auto)]

ghost use Rattle.std.specs.Prelude.{◌≡◌};
ghost use Rattle.engine.specs.Run.{run_of, Ends};
ghost use Rattle.engine.specs.Alone.{check_of, copy_of, copied_of, forward_of};
ghost use Rattle.engine.specs.Draining.{drain_end_of};
ghost use Rattle.engine.specs.Imaging.{image_answer_of, imaged_of};

use engine::{Answer, Drained, Forwarded, Tally};
use network::Checked;

// The run over a list of events; the tally is the host's own.
#[unsafe(no_mangle)]
pub extern "C" fn relay_run(
    state: &mut [u8],
    table: &[u8],
    events: &[u8],
    tally: &mut Tally,
) -> Answer
    ensures { Ends result state.new tally.new
        (run_of state.old table.now events.now tally.old) }
{
    engine::relay_run(state, table, events, tally)
}

// The single forward, which answers who newly holds the message.
#[unsafe(no_mangle)]
pub extern "C" fn relay_forward(state: &mut [u8], table: &[u8], peer: u8, message: u8) -> Forwarded
    ensures { (result ≡ (forward_of state.old table.now peer message).answer) ×
        (state.new ≡ (forward_of state.old table.now peer message).state) }
{
    engine::relay_forward(state, table, peer, message)
}

// The drain by rounds, within a budget of forwards.
#[unsafe(no_mangle)]
pub extern "C" fn relay_drain(state: &mut [u8], table: &[u8], budget: u32) -> Drained
    ensures { (result ≡ (drain_end_of state.old table.now budget).answer) ×
        (state.new ≡ (drain_end_of state.old table.now budget).state) }
{
    engine::relay_drain(state, table, budget)
}

// The image of a state, written to a second buffer.
#[unsafe(no_mangle)]
pub extern "C" fn relay_image(state: &[u8], image: &mut [u8]) -> Checked
    ensures { (result ≡ image_answer_of state.now image.old) ×
        (image.new ≡ imaged_of state.now image.old) }
{
    engine::relay_image(state, image)
}

// Whether a state is sound, and which rule of which record it breaks if it is not.
#[unsafe(no_mangle)]
pub extern "C" fn relay_check(state: &[u8]) -> Checked
    ensures { result ≡ check_of state.now }
{
    engine::relay_check(state)
}

// Reads a state and writes it to another buffer; a refusal leaves that buffer untouched.
#[unsafe(no_mangle)]
pub extern "C" fn relay_copy(from: &[u8], to: &mut [u8]) -> Checked
    ensures { (result ≡ copy_of from.now to.old) × (to.new ≡ copied_of from.now to.old) }
{
    engine::relay_copy(from, to)
}

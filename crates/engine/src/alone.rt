// Reading alone, reading one buffer and writing another, and the single forward.
ghost use Rattle.std.specs.Prelude.{◌≡◌};
ghost use Rattle.network.specs.Refused.{checked_as};
ghost use Rattle.engine.specs.Alone.{check_of, copy_of, copied_of, forward_of};
ghost use Rattle.engine.specs.Alone.{forwarded_as, Gives};

use crate::{Forwarded, start};
use floodnet::turns;
use network::{Checked, Message, Network, Peer, Refusal, Refused, Table};
use sets::Word;

// "Reading [..] refuse[s] by 1, then" 20 to 26, "and by nothing else".
pub fn relay_check(state: &[u8]) -> Checked
    ensures { result ≡ check_of state.now }
{
    let mut n = Network::blank();
    Checked::from(n.open(state))
}

// The state is read, and written where the other buffer has its length. (An image, imaging.rt, is written so, too: what the two share is `open` and `save`.)
fn copy(from: &[u8], to: &mut [u8]) -> Result<(), Refused>
    ensures { (checked_as result ≡ copy_of from.now to.old) × (to.new ≡ copied_of from.now to.old) }
{
    let mut n = Network::blank();
    n.open(from)?;
    if to.len() != 5120 {
        return Err(Refused::from(Refusal::StateLength));
    }
    n.save(to);
    Ok(())
}

// Reads a state and writes it to another buffer; a refusal leaves that buffer untouched.
pub fn relay_copy(from: &[u8], to: &mut [u8]) -> Checked
    ensures { (result ≡ copy_of from.now to.old) × (to.new ≡ copied_of from.now to.old) }
{
    Checked::from(copy(from, to))
}

// The answer of a single forward, for its receivers or its refusal: a refused one has no receivers.
impl From<Result<u32, Refused>> for Forwarded {
    ghost from_gives = { λ answer forwarded. forwarded ≡ forwarded_as answer };

    #[tactic(auto, using(sets::proofs::laws::Sizes::size_none))]
    fn from(answer: Result<u32, Refused>) -> Forwarded {
        match answer {
            Ok(receivers) => Forwarded {
                number: 0,
                detail: 0,
                place: 0,
                deliveries: receivers.size(),
                receivers,
            },
            Err(refused) => Forwarded {
                number: u8::from(refused.refusal),
                detail: refused.detail,
                place: refused.place,
                deliveries: 0,
                receivers: 0,
            },
        }
    }
}

// The peers that newly hold the message. Accepted, what concerns messages is written into the state, whose other bytes are already those of the
// network after it.
fn forward(state: &mut [u8], table: &[u8], peer: u8, message: u8) -> Result<u32, Refused>
    ensures { Gives (forwarded_as result) state.new (forward_of state.old table.now peer message) }
{
    let mut n = Network::blank();
    let mut rows = Table::blank();
    start::start(&*state, table, 0, &mut n, &mut rows)?;
    let p = Peer::try_from(peer)?;
    let m = Message::try_from(message)?;
    let receivers = turns::forward(&mut n, &rows, p, m).outcome?;
    n.save_messages(state);
    Ok(receivers)
}

// "Called alone on a state, table, peer and message, it refuses by 1, 2, 4," 20 to 26, "7, 8, 13 in this order, place 0 for the last
// three, buffers untouched"; it answers "the set of peers that newly hold the message" (E2), and its size.
pub fn relay_forward(state: &mut [u8], table: &[u8], peer: u8, message: u8) -> Forwarded
    ensures { (result ≡ (forward_of state.old table.now peer message).answer) ×
        (state.new ≡ (forward_of state.old table.now peer message).state) }
{
    Forwarded::from(forward(state, table, peer, message))
}

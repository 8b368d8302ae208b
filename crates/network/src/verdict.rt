// The verdict on a network: the lowest record that breaks a rule, which rule that is, and the detail (specs/Rules.antt).
ghost use Rattle.std.specs.Prelude.{◌≡◌, ℕ, ◌<◌, get_or};
ghost use Rattle.network.specs.Refusal.{number_of};
ghost use Rattle.network.specs.Refused.{checked_as};
ghost use Rattle.network.specs.Rules.{detail_of, verdict_by};
ghost use Rattle.network.specs.Tests.{subscribers_of};

use crate::{Network, Peer, Refusal, Refused, rules};

// The detail that goes with p's fault: the lowest peer or topic at fault for 23 to 25, 0 for the others, as document 02 and C's answers have it. It
// is asked only once a record is known to be at fault, so that there is one.
fn detail(n: &Network, refusal: Refusal, p: Peer, subscribers: &[u32; 32]) -> u8
    requires within { (p.0 < 32) × (subscribers.now ≡ subscribers_of n.now.subs) }
    requires there { detail_of (number_of refusal) n.now p < 32 }
    ensures { result ≡ detail_of (number_of refusal) n.now p }
{
    let listed = n.neighbours[p.0 as usize];
    let found = match refusal {
        Refusal::NeighbourAbsent => rules::near_absent(listed, n.present),
        Refusal::NotListedBack => rules::list_back(&n.neighbours, listed, p),
        Refusal::KnownWrong => rules::row_known(&n.known, subscribers, listed, p),
        _ => None,
    };
    found.unwrap_or(0) as u8
}

// The verdict: the lowest record that breaks a rule, the first rule that it breaks, and the detail.
#[tactic(auto, using(crate::proofs::Steps::judging))]
pub(crate) fn verdict(n: &Network, heads: &[u32; 32]) -> Result<(), Refused>
    ensures { checked_as result ≡ verdict_by (λ (p : ℕ). get_or heads.now p 0) n.now }
{
    let subscribers = rules::subscribers(&n.subs);
    for p in 0..32 {
        let place = p as usize;
        if let Err(refusal) = rules::fault(n, heads[place], Peer(p), &subscribers) {
            return Err(Refused {
                refusal,
                place,
                detail: detail(n, refusal, Peer(p), &subscribers),
            });
        }
    }
    Ok(())
}

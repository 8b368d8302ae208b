// The tally: an update by value, and the same on a tally that is lent, by the receivers of the event: the form that document 01 names.
ghost use Rattle.std.specs.Prelude.{◌≡◌};
ghost use Rattle.sets.specs.Set.{size};
ghost use Rattle.engine.specs.Run.{tallied_of, Room};

use crate::Tally;
use events::kind::Kind;
use sets::Word;

// One accepted event more.
#[tactic(auto, unfolding(crate::specs::Run::tallied_of))]
pub(crate) fn tallied(t: Tally, kind: Kind, deliveries: u32) -> Tally
    requires { Room t deliveries }
    ensures { result ≡ tallied_of t kind deliveries }
{
    match kind {
        Kind::Produce => Tally {
            produced: t.produced + 1,
            ..t
        },
        Kind::Forward => Tally {
            forwards: t.forwards + 1,
            deliveries: t.deliveries + deliveries as u64,
            ..t
        },
        _ => t,
    }
}

impl Tally {
    // The same on a tally that is lent; each receiver is one delivery.
    pub(crate) fn count_in(&mut self, kind: Kind, receivers: u32)
        requires { Room self.old (size receivers) }
        ensures { self.new ≡ tallied_of self.old kind (size receivers) }
    {
        *self = tallied(*self, kind, receivers.size());
    }
}

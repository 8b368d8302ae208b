// What refusal 7 tests of a record's fields: a used peer is at most 31, a used message at most 63, and whatever the kind doesn't use is
// zero (specs/Event.antt).
ghost use Rattle.std.specs.Prelude.{◌≡◌};
ghost use Rattle.events.specs.Event.{no_more, no_sets, no_message, skip_ok, pair_ok, topics_ok, leave_ok, join_ok};

use super::Fields;

// Pubs and neighbours are unused.
#[tactic(auto, unfolding(crate::specs::Event::no_more))]
pub(crate) fn no_more(f: Fields) -> bool
    ensures { result ≡ no_more f }
{
    f.pubs == 0 && f.neighbours == 0
}

// All three words are unused.
#[tactic(auto, unfolding(crate::specs::Event::no_sets))]
pub(crate) fn no_sets(f: Fields) -> bool
    ensures { result ≡ no_sets f }
{
    f.subs == 0 && no_more(f)
}

// The message and byte 3 are unused.
#[tactic(auto, unfolding(crate::specs::Event::no_message))]
pub(crate) fn no_message(f: Fields) -> bool
    ensures { result ≡ no_message f }
{
    f.message == 0 && f.zero == 0
}

#[tactic(auto, unfolding(crate::specs::Event::skip_ok))]
pub(crate) fn skip_ok(f: Fields) -> bool
    ensures { result ≡ skip_ok f }
{
    f.peer == 0 && no_message(f) && no_sets(f)
}

#[tactic(auto, unfolding(crate::specs::Event::pair_ok))]
pub(crate) fn pair_ok(f: Fields) -> bool
    ensures { result ≡ pair_ok f }
{
    f.peer < 32 && f.message < 64 && f.zero == 0 && no_sets(f)
}

#[tactic(auto, unfolding(crate::specs::Event::topics_ok))]
pub(crate) fn topics_ok(f: Fields) -> bool
    ensures { result ≡ topics_ok f }
{
    f.peer < 32 && no_message(f) && no_more(f)
}

#[tactic(auto, unfolding(crate::specs::Event::leave_ok))]
pub(crate) fn leave_ok(f: Fields) -> bool
    ensures { result ≡ leave_ok f }
{
    f.peer < 32 && no_message(f) && no_sets(f)
}

#[tactic(auto, unfolding(crate::specs::Event::join_ok))]
pub(crate) fn join_ok(f: Fields) -> bool
    ensures { result ≡ join_ok f }
{
    f.peer < 32 && no_message(f)
}

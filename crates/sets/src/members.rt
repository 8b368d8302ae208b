// A set's members one after the other, the least first (specs/Rising.antt): each is found by the count of trailing zeros and taken away.
ghost use Rattle.std.specs.Prelude.{◌≡◌};
ghost use Rattle.std.specs.Iterator.{item_count};
ghost use Rattle.sets.specs.Rising.{members, Gives};

use crate::Word;

/// The members that are left.
#[derive(Clone, Copy)]
pub struct Members<W> {
    pub left: W,
}

impl<W: Word> Iterator for Members<W> {
    type Item = u32;

    ghost next_gives = { λ s r t. Gives W.width (W.bits s.left) r (W.bits t.left) };

    ghost remaining = { item_count (λ s. members W.width (W.bits s.left)) };

    fn next(&mut self) -> Option<u32> {
        if self.left.is_empty() {
            return None;
        }
        let least = self.left.lowest();
        self.left = self.left.rest();
        Some(least)
    }
}

// Words of 32 and of 64 bits, as sets of the numbers below 32 and 64. Each says what its own operations compute: in generic code a word is any number,
// so that one impl over all integers (`PrimInt`) would have to ask of every call that its words are in range.
ghost use Rattle.std.specs.Prelude.{ℕ};

use crate::Word;

impl Word for u32 {
    ghost width = { 32 };

    ghost bits = { λ w. w };

    fn only(i: u32) -> u32 {
        1 << i
    }

    #[tactic(auto, unfolding(crate::specs::Set::has))]
    fn has(self, i: u32) -> bool {
        (self >> i) % 2 == 1
    }

    #[tactic(auto, unfolding(crate::specs::Set::union))]
    fn union(self, other: u32) -> u32 {
        self | other
    }

    #[tactic(auto, unfolding(crate::specs::Set::meet))]
    fn meet(self, other: u32) -> u32 {
        self & other
    }

    fn minus(self, other: u32) -> u32 {
        self & !other
    }

    fn with_if(self, i: u32, b: bool) -> u32 {
        self | ((b as u32) << i)
    }

    fn is_empty(self) -> bool {
        self == 0
    }

    #[tactic(auto, using(crate::proofs::laws::Sizes::size_le), unfolding(crate::specs::Set::size))]
    fn size(self) -> u32 {
        u32::count_ones(self)
    }

    #[tactic(auto, using(crate::proofs::laws::Lowest::lowest_lt), unfolding(crate::specs::Set::lowest))]
    fn lowest(self) -> u32 {
        u32::trailing_zeros(self)
    }

    #[tactic(auto, using(crate::proofs::laws::Lowest::and_pred, crate::proofs::laws::Lowest::and_pred_lt))]
    fn rest(self) -> u32 {
        self & (self - 1)
    }
}

impl Word for u64 {
    ghost width = { 64 };

    ghost bits = { λ w. w };

    fn only(i: u32) -> u64 {
        1 << i
    }

    #[tactic(auto, unfolding(crate::specs::Set::has))]
    fn has(self, i: u32) -> bool {
        (self >> i) % 2 == 1
    }

    #[tactic(auto, unfolding(crate::specs::Set::union))]
    fn union(self, other: u64) -> u64 {
        self | other
    }

    #[tactic(auto, unfolding(crate::specs::Set::meet))]
    fn meet(self, other: u64) -> u64 {
        self & other
    }

    fn minus(self, other: u64) -> u64 {
        self & !other
    }

    fn with_if(self, i: u32, b: bool) -> u64 {
        self | ((b as u64) << i)
    }

    fn is_empty(self) -> bool {
        self == 0
    }

    #[tactic(auto, using(crate::proofs::laws::Sizes::size_le), unfolding(crate::specs::Set::size))]
    fn size(self) -> u32 {
        u64::count_ones(self)
    }

    #[tactic(auto, using(crate::proofs::laws::Lowest::lowest_lt), unfolding(crate::specs::Set::lowest))]
    fn lowest(self) -> u32 {
        u64::trailing_zeros(self)
    }

    #[tactic(auto, using(crate::proofs::laws::Lowest::and_pred, crate::proofs::laws::Lowest::and_pred_lt))]
    fn rest(self) -> u64 {
        self & (self - 1)
    }
}

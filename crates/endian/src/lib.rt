// Little-endian numbers of 4 and 8 bytes at a place of a slice.
//
// What it promises: `read` gives the number whose lowest byte stands first, `put` writes it and touches no other byte (`le` and `put_le` of
// specs/Le.antt). The two widths are one trait, and the laws of specs/laws/Le.antt are over any number of bytes: what was written is read, what was
// read and is written back changes nothing, and bytes, lengths and every other place stay as they were.
//
// Read on: specs/Le.antt, from its definitions down.
#![tactic(auto)]

ghost use Rattle.std.specs.Prelude.{◌≡◌, ℕ, ◌+◌, ◌≤◌, length};
ghost use Rattle.endian.specs.Le.{le, put_le};

/// A number that stands in bytes, the lowest first. The bytes are lent with the place in them: nothing is made and copied.
pub trait Little: Copy {
    // How many bytes it takes, and what number it is.
    ghost size: { ℕ };

    ghost number: { Self → ℕ };

    /// The number at `at`.
    fn read(b: &[u8], at: usize) -> Self
        requires { at + size ≤ length b.now }
        ensures { number result ≡ le size b.now at };

    /// Writes it as the number at `at`.
    fn put(self, b: &mut [u8], at: usize)
        requires { at + size ≤ length b.old }
        ensures { b.new ≡ put_le size b.old at (number self) };
}

impl Little for u32 {
    ghost size = { 4 };

    ghost number = { λ x. x };

    fn read(b: &[u8], at: usize) -> u32 {
        u32::from_le_bytes([b[at], b[at + 1], b[at + 2], b[at + 3]])
    }

    fn put(self, b: &mut [u8], at: usize) {
        let [b0, b1, b2, b3] = self.to_le_bytes();
        b[at] = b0;
        b[at + 1] = b1;
        b[at + 2] = b2;
        b[at + 3] = b3;
    }
}

// Each width names its own functions of the library: generic code has neither. (It is put as two halves: of the higher one the edit one_place_early speaks.)
impl Little for u64 {
    ghost size = { 8 };

    ghost number = { λ x. x };

    fn read(b: &[u8], at: usize) -> u64 {
        u64::from_le_bytes([
            b[at],
            b[at + 1],
            b[at + 2],
            b[at + 3],
            b[at + 4],
            b[at + 5],
            b[at + 6],
            b[at + 7],
        ])
    }

    fn put(self, b: &mut [u8], at: usize) {
        let low = (self % 4294967296) as u32;
        let high = (self / 4294967296) as u32;
        low.put(&mut *b, at);
        high.put(&mut *b, at + 4);
    }
}

// Bytes and numbers written into the lent buffer, one behind the other (`Put` of specs/Write.antt).
ghost use Rattle.std.specs.Prelude.{◌≡◌, ◌+◌, ◌≤◌, ◌<◌, length};
ghost use Rattle.report.specs.Text.{decimal, spaced, newline};
ghost use Rattle.report.specs.Write.{Put};

// The buffer, and the place up to which it is written.
#[derive(Drop)]
pub(crate) struct Page<'a> {
    pub(crate) out: &'a mut [u8],
    pub(crate) at: usize,
}

impl Page<'_> {
    // The bytes of s.
    #[tactic(auto, using(crate::proofs::Write::wrote_part))]
    pub(crate) fn put(&mut self, s: &[u8])
        requires { self.old.at + length s.now ≤ length self.old.out.now }
        ensures { Put self.old s.now self.new }
    {
        let end = self.at + s.len();
        self.out[self.at..end].copy_from_slice(s);
        self.at = end;
    }

    // x in decimal.
    #[tactic(auto, using(crate::specs::laws::TextLaws::decimal_std))]
    pub(crate) fn number(&mut self, x: usize)
        requires { self.old.at + length (decimal x) ≤ length self.old.out.now }
        ensures { Put self.old (decimal x) self.new }
    {
        self.put(itoa::Buffer::new().format(x).as_bytes());
    }

    // A space, then x in decimal.
    #[tactic(auto, unfolding(crate::specs::Text::spaced))]
    pub(crate) fn spaced(&mut self, x: usize)
        requires { self.old.at + length (spaced x) ≤ length self.old.out.now }
        ensures { Put self.old (spaced x) self.new }
    {
        self.put(b" ");
        self.number(x);
    }

    // The end of a line.
    pub(crate) fn newline(&mut self)
        requires { self.old.at < length self.old.out.now }
        ensures { Put self.old newline self.new }
    {
        self.put(b"\n");
    }
}

// Text put into a lent buffer, piece after piece, as far as there is room.
#![tactic(auto)]

ghost use Rattle.std.specs.Prelude.{◌≡◌, ◌≤◌, ◌<◌, length};

use decimal::fixed;

// A lent buffer, and how many of its first bytes are text that was put there.
#[derive(Drop)]
pub struct Text<'a> {
    out: &'a mut [u8],
    at: usize,
    ghost within: { at ≤ length out.now },
}

impl<'a> Text<'a> {
    ghost use Rattle.std.specs.Prelude.{[], ◌∷◌, take};
    ghost use Rattle.append.specs.Append.{Begins, Puts, leading_of, numeral};

    // No text yet.
    pub fn new(out: &'a mut [u8]) -> Text<'a>
        ensures begins { Begins out.old result }
        ensures same_buffer { result.out.ghost_name ≡ out.entry.ghost_name }
    {
        Text { out, at: 0 }
    }

    // The length of the text, which is where the next piece goes.
    pub fn len(&self) -> usize
        ensures { result ≡ self.now.at }
    {
        self.at
    }

    // The text.
    pub fn written(&self) -> &[u8]
        ensures { result.now ≡ take self.now.at self.now.out.now }
    {
        &self.out[..self.at]
    }

    pub fn put(&mut self, piece: &[u8])
        ensures { Puts piece.now self.old self.new }
    {
        let n = piece.len().min(self.out.len() - self.at);
        self.out[self.at..self.at + n].copy_from_slice(&piece[..n]);
        self.at += n;
    }

    // The digit at 10^i, where n has one.
    fn put_leading(&mut self, n: u64, i: usize)
        requires { i < 20 }
        ensures { Puts (leading_of n i) self.old self.new }
    {
        if fixed::power(i) <= n {
            self.put(&[fixed::digit(n, i)]);
        }
    }

    // n in decimal digits.
    pub fn put_number(&mut self, n: u64)
        ensures { Puts (numeral n) self.old self.new }
    {
        for i in (1..20).rev() {
            self.put_leading(n, i);
        }
        self.put(&[fixed::digit(n, 0)]);
    }
}

// Elements written into lent memory that has room for them, and text: words and numbers.
// No `write!`: no clause of it says that it answers Ok, and these texts are promised.
ghost use Rattle.std.specs.Prelude.{◌≡◌, ◌+◌, ◌<◌, ◌≤◌, [], ◌∷◌, length};
ghost use Rattle.run.specs.Report.{digit_byte, digits, hex, decimal_count, decimal, spaced};
ghost use Rattle.run.specs.Written.{Room, Written};

use crate::writer::Writer;
use vectors::bits::bits_of;

impl<T: Copy> Writer<'_, T> {
    pub(crate) fn push(&mut self, x: T)
        requires { Room 1 self.old }
        ensures { Written 1 (x ∷ []) self.old self.new }
    {
        self.out[self.at] = x;
        self.at += 1;
    }

    pub(crate) fn extend(&mut self, xs: &[T])
        requires { Room (length xs.now) self.old }
        ensures { Written (length xs.now) xs.now self.old self.new }
    {
        let end = self.at + xs.len();
        self.out[self.at..end].copy_from_slice(xs);
        self.at = end;
    }
}

impl Writer<'_, u8> {
    // A space and the last k digits of n.
    fn digits(&mut self, n: u64, base: u64, k: usize)
        requires { (0 < base) × (base ≤ 16) × (Room (1 + k) self.old) }
        ensures { Written (1 + k) (spaced (digits base k n)) self.old self.new }
    {
        let end = self.at + 1 + k;
        let text = &mut self.out[self.at..end];
        text[0] = b' ';
        let mut rest = n;
        for i in (0..k).rev() {
            text[1 + i] = digit_byte(rest % base);
            rest /= base;
        }
        self.at = end;
    }

    // A space and 16 hexadecimal capitals.
    pub(crate) fn float(&mut self, x: f64)
        requires { Room 17 self.old }
        ensures { Written 17 (spaced (hex x)) self.old self.new }
    {
        self.digits(bits_of(x), 16, 16);
    }

    // A space and n in decimal.
    pub(crate) fn decimal(&mut self, n: u64)
        requires { Room 21 self.old }
        ensures { Written 21 (spaced (decimal n)) self.old self.new }
    {
        self.digits(n, 10, decimal_count(n));
    }
}

// `0` to `9`, then `A` to `F`.
#[tactic(auto, unfolding(crate::specs::Report::digit_byte))]
fn digit_byte(d: u64) -> u8
    requires { d < 16 }
    ensures { result ≡ digit_byte d }
{
    b"0123456789ABCDEF"[d as usize]
}

// How many decimal digits n has.
fn decimal_count(n: u64) -> usize
    ensures { (result ≡ decimal_count 19 n) × (result ≤ 20) }
{
    n.checked_ilog10().map_or(1, |k| k as usize + 1)
}

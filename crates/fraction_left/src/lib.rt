// The slashes that a round leaves for the next one, and the marks by which it remembers them.
#![tactic(auto)]

ghost use Rattle.std.specs.Prelude.{◌≡◌, List, ℕ, ◌≤◌, ◌<◌, length};
ghost use Rattle.spec.specs.Result.{most_symbols};
ghost use Rattle.spec.specs.Fractions.{Done, nothing_done, is_left, leaving};
ghost use Rattle.text_symbols.specs.Places.{before};
ghost use Rattle.fraction_operands.specs.Places.{Place};
ghost use Rattle.fraction_left.specs.Left.{Kept, KeptIn, rewritten_to};

use text::CAP;
use text_symbols::Class;

// What a round remembers: the end of the text that it rewrote last, and at each place whether a slash was left there, 1 if so. Every place of
// the longest text has a mark.
#[derive(Clone, Copy)]
pub struct Marks {
    pub rewritten: usize,
    pub left: [u8; CAP],
}

// Clears the marks of the first `n` places, as many as there are.
pub fn unmark(left: &mut [u8], n: usize)
    requires { n ≤ length left.old }
    ensures kept { KeptIn left.new 0 n nothing_done }
    ensures as_long { length left.new ≡ length left.old }
{
    left[..n].fill(0);
}

impl Marks {
    // Nothing has been done in any text.
    pub fn new() -> Marks
        ensures { Kept result most_symbols nothing_done }
    {
        Marks {
            rewritten: 0,
            left: [0; CAP],
        }
    }

    // Nothing has been done in a text of `n` symbols.
    pub fn clear(&mut self, n: usize)
        requires { n ≤ most_symbols }
        ensures { Kept self.new n nothing_done }
    {
        self.rewritten = 0;
        unmark(&mut self.left, n);
    }

    // Marks the slash at `i`, which is left.
    pub fn mark(&mut self, i: usize)
        requires { i < most_symbols }
        ensures { (n : ℕ) (done : Done) (p : List ℕ) → length p ≡ i → i < n → Kept self.old n done → Kept self.new n (leaving done p) }
    {
        self.left[i] = 1;
    }

    // The text up to `end` has been rewritten.
    pub fn rewrite(&mut self, end: usize)
        ensures { (n : ℕ) (done : Done) → Kept self.old n done → Kept self.new n (rewritten_to done end) }
    {
        self.rewritten = end;
    }

    // Whether a slash is left whose numerator begins at `start`: before the end of the text rewritten last, or right behind
    // a slash that was left, blanks apart.
    pub fn is_left(&self, s: &[u8], start: usize) -> bool
        requires { Place s.now start }
        ensures { (done : Done) → Kept self.now (length s.now) done → result ≡ is_left done (before s.now start) }
    {
        if start < self.rewritten {
            return true;
        }
        let back = text_symbols::run_start(s, start, Class::Blank);
        if back == 0 {
            return false;
        }
        let j = back - 1;
        (s[j] == b'/') & (self.left[j] == 1)
    }
}

// The capped writer. A symbol is stored while the count is below the capacity, and the count always goes up: what stands in the
// region is the beginning of what was written, and dropping symbols from the end only lowers the count.
ghost use Rattle.std.specs.Prelude.{◌≡◌, [], ◌∷◌, ◌+◌, ◌≤◌, ◌<◌, length, get_or, replicate};
ghost use Rattle.text_symbols.specs.Parts.{part};
ghost use Rattle.text.specs.Writer.{Room, Appended, Apart, started, cut_by};
ghost use Rattle.text.specs.Stage.{judged};

use super::{CAP, Progress, Refusal, TextPlace};

// Where a text is written in the work buffer: it begins at `to`, `cap` symbols are stored at the most, and it has `count`.
#[derive(Clone, Copy)]
pub struct Writer {
    pub to: usize,
    pub cap: usize,
    pub count: usize,
}

impl Writer {
    // Nothing has been written to the region at `to`.
    pub fn new(to: usize) -> Writer
        ensures { result ≡ started to }
    {
        Writer {
            to,
            cap: CAP,
            count: 0,
        }
    }

    // Appends `b`. Past the capacity nothing is stored, and the count still goes up.
    pub fn put(self, work: &mut [u8], b: u8) -> Writer
        requires { Room work.old self 1 }
        ensures { Appended work.old work.new self result (b ∷ []) }
    {
        if self.count < self.cap {
            work[self.to + self.count] = b;
        }
        Writer {
            count: self.count + 1,
            ..self
        }
    }

    // Appends all of `bytes`. Past the capacity they are only counted.
    pub fn put_all(self, work: &mut [u8], bytes: &[u8]) -> Writer
        requires { Room work.old self (length bytes.now) }
        ensures { Appended work.old work.new self result bytes.now }
    {
        if self.cap <= self.count {
            return Writer {
                count: self.count + bytes.len(),
                ..self
            };
        }
        let mut end = self;
        for b in bytes {
            end = end.put(work, *b);
        }
        end
    }

    // Appends the byte at a place.
    pub fn copy_one(self, work: &mut [u8], at: usize) -> Writer
        requires room { Room work.old self 1 }
        requires at_in_bounds { at < length work.old }
        ensures { Appended work.old work.new self result (get_or work.old at 0 ∷ []) }
    {
        let b = work[at];
        self.put(work, b)
    }

    // Appends the `n` bytes at `from`, which lie apart from the region that is written.
    pub fn copy(self, work: &mut [u8], from: usize, n: usize) -> Writer
        requires room { Room work.old self n }
        requires n_in_bounds { from + n ≤ length work.old }
        requires apart { Apart from n self }
        ensures { Appended work.old work.new self result (part from n work.old) }
    {
        let mut end = self;
        for i in 0..n {
            end = end.copy_one(work, from + i);
        }
        end
    }

    // Drops `n` symbols from the end, or all.
    pub fn cut(self, n: usize) -> Writer
        ensures { result ≡ cut_by n self }
    {
        Writer {
            count: self.count.saturating_sub(n),
            ..self
        }
    }

    // The finished text, or number 5.
    pub fn finished(self) -> Progress
        ensures { result ≡ judged self }
    {
        if CAP < self.count {
            return Err(Refusal::Overgrown);
        }
        Ok(TextPlace {
            at: self.to,
            n: self.count,
        })
    }
}

// Zeroes all of the buffer.
pub fn clear(work: &mut [u8])
    ensures { work.new ≡ replicate (length work.old) 0 }
{
    work.fill(0);
}

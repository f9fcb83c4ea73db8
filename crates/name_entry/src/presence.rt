// The symbols that are neighbours in a text, each pair as a number. A pattern with a pair that does not occur is known to be nowhere,
// and costs no search.
ghost use Rattle.std.specs.Prelude.{◌≡◌, replicate};
ghost use Rattle.text.specs.Stage.{Ready};
ghost use Rattle.name_entry.specs.Seen.{paired, PairsMarked, text_of, SeenIn, missing, nowhere};

use text::{Progress, TextPlace};

// The number of two neighbours. Some pairs share one.
fn pair(a: u8, b: u8) -> usize
    ensures { result ≡ paired a b }
{
    2 * usize::from(a) + usize::from(b)
}

// The pairs that occur, by their numbers: 1 for each. Two symbols have no number above 765.
#[derive(Clone, Copy)]
pub struct Pairs {
    pub seen: [u8; 768],
}

impl Pairs {
    // No pair.
    pub fn new() -> Pairs
        ensures { result.seen ≡ replicate 768 0 }
    {
        Pairs { seen: [0; 768] }
    }

    // Marks each pair that occurs. What was marked before stays, and so does what is not.
    fn mark_pairs(&mut self, s: &[u8])
        ensures { PairsMarked self.old.seen self.new.seen s.now }
    {
        for w in s.windows(2) {
            self.seen[pair(w[0], w[1])] = 1;
        }
    }

    // The same of a formula on its way. A refused one has no pairs.
    pub fn mark(&mut self, work: &[u8], text: Progress)
        requires { Ready work.now text }
        ensures { PairsMarked self.old.seen self.new.seen (text_of text work.now) }
    {
        let Ok(TextPlace { at: from, n }) = text else {
            return;
        };
        let end = from + n;
        self.mark_pairs(&work[from..end]);
    }

    // Whether a pair of the pattern does not occur.
    fn is_missing(&self, pattern: &[u8]) -> bool
        ensures { result ≡ missing self.now.seen pattern.now }
    {
        for w in pattern.windows(2) {
            if self.seen[pair(w[0], w[1])] == 0 {
                return true;
            }
        }
        false
    }

    // Whether the pattern is nowhere in a formula on its way. A pair of it that does not occur spares the search.
    pub fn is_nowhere(&self, work: &[u8], text: Progress, pattern: &[u8]) -> bool
        requires ready { Ready work.now text }
        requires seen_in { SeenIn self.now.seen work.now text }
        ensures { result ≡ nowhere text work.now pattern.now }
    {
        let Ok(TextPlace { at: from, n }) = text else {
            return true;
        };
        let end = from + n;
        self.is_missing(pattern) || !text_search::contains(&work[from..end], pattern)
    }
}

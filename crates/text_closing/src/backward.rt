// The closing search from the end of a text to its start.
ghost use Rattle.std.specs.Prelude.{reverse, ◌≤◌, length};
ghost use Rattle.spec.specs.Result.{most_symbols};
ghost use Rattle.spec.specs.Closing.{close};
ghost use Rattle.text_closing.specs.Backward.{ClosesBack};

use super::Tally;

// The place of the bracket that belongs to the one behind the text. Read backwards, `opener` opens and `closer` closes.
pub fn find_closer_back(s: &[u8], opener: u8, closer: u8) -> Option<usize>
    requires { length s.now ≤ most_symbols }
    ensures { ClosesBack s.now result (close opener closer 0 (reverse s.now)) }
{
    let mut tally = Tally::new(opener, closer);
    for i in (0..s.len()).rev() {
        tally = tally.step(s[i]);
        if tally.depth == 0 {
            return Some(i);
        }
    }
    None
}

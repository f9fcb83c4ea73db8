// Whether the brackets of a text are level.
ghost use Rattle.std.specs.Prelude.{◌≡◌, ◌≤◌, length};
ghost use Rattle.spec.specs.Result.{most_symbols};
ghost use Rattle.spec.specs.Closing.{level};

use super::Tally;

// All brackets of the text close, none before it opens. The tally's first bracket stands around the text.
pub fn is_level(s: &[u8], opener: u8, closer: u8) -> bool
    requires { length s.now ≤ most_symbols }
    ensures { result ≡ level opener closer 0 s.now }
{
    let mut tally = Tally::new(opener, closer);
    for b in s {
        tally = tally.step(*b);
        if tally.depth == 0 {
            return false;
        }
    }
    tally.depth == 1
}

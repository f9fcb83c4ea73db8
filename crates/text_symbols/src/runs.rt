// Runs of a class: the symbols of the class that stand one after another from a place on, to either side.
ghost use Rattle.std.specs.Prelude.{◌≡◌, ◌≤◌, length, drop};
ghost use Rattle.spec.specs.Symbols.{all, drop_while};
ghost use Rattle.text_symbols.specs.Places.{before, AheadTo, BackTo};
ghost use Rattle.text_symbols.specs.Runs.{member};

use super::Class;
use super::classes::is_in;

// Where the run ends that begins at `start`.
pub fn run_end(s: &[u8], start: usize, class: Class) -> usize
    requires { start ≤ length s.now }
    ensures { AheadTo s.now start result (drop_while (member class) (drop start s.now)) }
{
    for i in start..s.len() {
        if !is_in(class, s[i]) {
            return i;
        }
    }
    s.len()
}

// Where the run begins that ends at `end`.
pub fn run_start(s: &[u8], end: usize, class: Class) -> usize
    requires { end ≤ length s.now }
    ensures { BackTo s.now end result (drop_while (member class) (before s.now end)) }
{
    for i in (0..end).rev() {
        if !is_in(class, s[i]) {
            return i + 1;
        }
    }
    0
}

// Whether all of the text is of the class.
pub fn all_in(s: &[u8], class: Class) -> bool
    ensures { result ≡ all (member class) s.now }
{
    run_end(s, 0, class) == s.len()
}

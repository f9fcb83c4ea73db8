// What is read before a slash: the numerator (find_fraction_part_before), and whether a script holds the slash.
#![tactic(auto)]

mod script;

ghost use Rattle.std.specs.Prelude.{◌<◌, length, get_or};
ghost use Rattle.spec.specs.Closing.{close};
ghost use Rattle.spec.specs.Fractions.{name_before, word_before, with_name, find_fraction_part_before};
ghost use Rattle.text_symbols.specs.Places.{before, BackTo};
ghost use Rattle.fraction_operands.specs.Places.{Place, FoundBack};

use fraction_operands::{before_group, closed_before, is_in_operand, is_name_symbol};
pub use script::{has_script_group, is_inside_script};

// The start of the name before a bracket, with its groups in braces.
fn name_before(s: &[u8], end: usize) -> usize
    requires { Place s.now end }
    ensures { BackTo s.now end result (name_before 0 (before s.now end)) }
{
    let mut i = end;
    // The step varies: behind a brace the search goes on before its group.
    while 0 < i {
        let b = s[i - 1];
        if !is_name_symbol(b) {
            return i;
        }
        if b == b'}' {
            i = before_group(s, i - 1, b'}', b'{');
        } else {
            i -= 1;
        }
    }
    i
}

// The start of the word whose last symbol is at `last`.
fn word_before(s: &[u8], last: usize) -> usize
    requires place { Place s.now last }
    requires last_in_bounds { last < length s.now }
    ensures { BackTo s.now last result (word_before (get_or s.now last 0) (before s.now last)) }
{
    for i in (0..last).rev() {
        if !is_in_operand(s[i + 1], s[i], text_search::symbol_before(s, i)) {
            return i + 1;
        }
    }
    0
}

// The start of a group with the name before it, from the bracket at `last`.
fn with_name(s: &[u8], last: usize, opener: u8, closer: u8) -> Option<usize>
    requires { Place s.now last }
    ensures { FoundBack s.now last result (with_name (close opener closer 0 (before s.now last))) }
{
    let i = closed_before(s, last, opener, closer)?;
    Some(name_before(s, i))
}

// The start of the numerator that ends at `end`.
pub fn find_fraction_part_before(s: &[u8], end: usize) -> Option<usize>
    requires { Place s.now end }
    ensures { FoundBack s.now end result (find_fraction_part_before (before s.now end)) }
{
    let last = end.checked_sub(1)?;
    let b = s[last];
    let closer = match b {
        b'}' => b'{',
        b')' => b'(',
        b']' => b'[',
        _ => {
            return Some(word_before(s, last));
        }
    };
    with_name(s, last, b, closer)
}

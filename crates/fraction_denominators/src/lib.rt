// What is read after a slash: the denominator (find_fraction_part_after). The Rust counts bytes of the jump from
// `\lvert` to `\rvert` where it should count symbols, which number 9 is for: `is_barred` says where it is met.
#![tactic(auto)]

mod past;

ghost use Rattle.std.specs.Prelude.{◌≡◌, ◌≤◌, eqb, drop};
ghost use Rattle.spec.specs.Symbols.{any, until, solidus};
ghost use Rattle.spec.specs.Closing.{find_matching_paren};
ghost use Rattle.spec.specs.Fractions.{grouped, rvert_from, after_lvert, after_brackets, barred, find_fraction_part_after};
ghost use Rattle.text_symbols.specs.Places.{AheadTo};
ghost use Rattle.fraction_operands.specs.Places.{Place, FoundAhead};

use fraction_operands::closed_after;
use past::{past_arguments, past_braces, past_bracket, past_factorials, past_power, word_after};

// Behind the first `\rvert`, or where it began.
fn rvert_from(s: &[u8], start: usize) -> usize
    requires { Place s.now start }
    ensures { AheadTo s.now start result (rvert_from (drop start s.now) (drop start s.now)) }
{
    text_search::find(&s[start..], b"\\rvert").map_or(start, |k| start + k + 6)
}

// The jump, where the word from `start` to `word` ends in `\lvert`.
fn after_lvert(s: &[u8], start: usize, word: usize) -> usize
    requires place { Place s.now word }
    requires start_le_word { start ≤ word }
    ensures { AheadTo s.now word result (after_lvert (until (drop start s.now) (drop word s.now)) (drop word s.now)) }
{
    if s[start..word].ends_with(b"\\lvert") {
        return rvert_from(s, word);
    }
    word
}

// Whether the text has a solidus mark, which is the symbol 1.
fn has_solidus(s: &[u8]) -> bool
    ensures { result ≡ any (λ x. eqb x solidus) s.now }
{
    s.contains(&1)
}

// Number 9: the jump of the denominator at `start` passes a solidus mark.
pub fn is_barred(s: &[u8], start: usize) -> bool
    requires { Place s.now start }
    ensures { result ≡ barred (drop start s.now) }
{
    if text_search::symbol(s, start) == b'(' {
        return false;
    }
    let word = word_after(s, start);
    let jumped = after_lvert(s, start, word);
    has_solidus(&s[word..jumped])
}

// The end of a denominator that begins at `start`, from behind its brackets.
fn after_brackets(s: &[u8], start: usize, base: usize) -> Option<usize>
    requires place { Place s.now base }
    requires start_le_base { start ≤ base }
    ensures { FoundAhead s.now start result (after_brackets (drop start s.now) (drop base s.now)) }
{
    let raised = text_search::symbol(s, base) == b'^';
    let power = past_power(s, base);
    let end = past_arguments(s, power, raised)?;
    if end == start {
        return None;
    }
    Some(end)
}

// The end of a denominator in parentheses, from behind the first.
fn grouped_after(s: &[u8], start: usize) -> Option<usize>
    requires { Place s.now start }
    ensures { FoundAhead s.now start result (grouped (find_matching_paren (drop start s.now))) }
{
    let i = closed_after(s, start, b'(', b')')?;
    Some(past_power(s, past_factorials(s, i)))
}

// The end of the denominator that begins at `start`.
pub fn find_fraction_part_after(s: &[u8], start: usize) -> Option<usize>
    requires { Place s.now start }
    ensures { FoundAhead s.now start result (find_fraction_part_after (drop start s.now)) }
{
    if text_search::symbol(s, start) == b'(' {
        return grouped_after(s, start + 1);
    }
    let word = word_after(s, start);
    let braces = past_braces(s, after_lvert(s, start, word));
    after_brackets(s, start, past_bracket(s, braces))
}

// The pieces of a denominator: each search passes one, if it is there.
ghost use Rattle.std.specs.Prelude.{drop};
ghost use Rattle.spec.specs.Fractions.{factorials, exponent, power, braces, bracket, arguments, word_after};
ghost use Rattle.text_symbols.specs.Places.{AheadTo};
ghost use Rattle.fraction_operands.specs.Places.{Place, FoundAhead};

use fraction_operands::{is_exponent_symbol, is_in_operand, past_group};
use text_symbols::Class;

// `!`, any number of them.
pub fn past_factorials(s: &[u8], start: usize) -> usize
    requires { Place s.now start }
    ensures { AheadTo s.now start result (factorials (drop start s.now)) }
{
    text_symbols::run_end(s, start, Class::Only(b'!'))
}

// What follows a `^`: a group in braces, or one symbol.
pub fn past_exponent(s: &[u8], start: usize) -> usize
    requires { Place s.now start }
    ensures { AheadTo s.now start result (exponent (drop start s.now)) }
{
    let b = text_search::symbol(s, start);
    if b == b'{' {
        return past_group(s, start + 1, b'{', b'}');
    }
    if is_exponent_symbol(b) {
        return start + 1;
    }
    start
}

// `^` and its exponent.
pub fn past_power(s: &[u8], start: usize) -> usize
    requires { Place s.now start }
    ensures { AheadTo s.now start result (power (drop start s.now)) }
{
    if text_search::symbol(s, start) == b'^' {
        return past_exponent(s, start + 1);
    }
    start
}

// Groups in braces, one after the other.
pub fn past_braces(s: &[u8], start: usize) -> usize
    requires { Place s.now start }
    ensures { AheadTo s.now start result (braces 0 (drop start s.now)) }
{
    let mut i = start;
    // The step varies: the search goes on behind the group.
    while text_search::symbol(s, i) == b'{' {
        i = past_group(s, i + 1, b'{', b'}');
    }
    i
}

// A group in square brackets.
pub fn past_bracket(s: &[u8], start: usize) -> usize
    requires { Place s.now start }
    ensures { AheadTo s.now start result (bracket (drop start s.now)) }
{
    if text_search::symbol(s, start) == b'[' {
        return past_group(s, start + 1, b'[', b']');
    }
    start
}

// Arguments in parentheses, which only a power may have before them. `raised` is a fact of the text that the definition takes too, and a function
// for each of its values would be no plainer.
pub fn past_arguments(s: &[u8], start: usize, raised: bool) -> Option<usize>
    requires { Place s.now start }
    ensures { FoundAhead s.now start result (arguments raised (drop start s.now)) }
{
    if text_search::symbol(s, start) == b'(' {
        if raised {
            return Some(past_group(s, start + 1, b'(', b')'));
        }
        return None;
    }
    Some(start)
}

// An operand with no brackets.
pub fn word_after(s: &[u8], start: usize) -> usize
    requires { Place s.now start }
    ensures { AheadTo s.now start result (word_after 0 (drop start s.now)) }
{
    let mut previous = 0;
    for i in start..s.len() {
        let b = s[i];
        if !is_in_operand(previous, b, text_search::symbol(s, i + 1)) {
            return i;
        }
        previous = b;
    }
    s.len()
}

// is_inside_subscript_context: a slash within the parentheses of a script is no fraction.
ghost use Rattle.std.specs.Prelude.{false, ◌≡◌};
ghost use Rattle.spec.specs.Fractions.{script_opener, is_inside_subscript_context};
ghost use Rattle.text_symbols.specs.Places.{before};
ghost use Rattle.fraction_operands.specs.Places.{Place};
ghost use Rattle.fraction_numerators.specs.Script.{Scriptless};

use text_closing::Tally;

// Whether the parenthesis at `i` opens a script, or is the second that does.
// By patterns: the subtraction in `symbol_before` would be kept up in each turn of the search below, which takes twice the time.
fn opens_script(s: &[u8], i: usize) -> bool
    requires { Place s.now i }
    ensures { result ≡ script_opener (before s.now i) }
{
    match &s[..i] {
        [] => false,
        [near] => text_symbols::is_script_sign(*near),
        [.., far, near] => {
            text_symbols::is_script_sign(*near)
                | ((*near == b'(') & text_symbols::is_script_sign(*far))
        }
    }
}

// Whether `pos` is within the parentheses of a script. An unmatched parenthesis that opens none begins a fresh tally, so this search
// goes on where those of `text_closing` end, and is none of them.
pub fn is_inside_subscript_context(s: &[u8], pos: usize) -> bool
    requires { Place s.now pos }
    ensures { result ≡ is_inside_subscript_context 0 (before s.now pos) }
{
    let mut tally = Tally::new(b')', b'(');
    for i in (0..pos).rev() {
        tally = tally.step(s[i]);
        if tally.depth == 0 {
            if opens_script(s, i) {
                return true;
            }
            tally = Tally::new(b')', b'(');
        }
    }
    false
}

// Whether some parenthesis of the text opens a script. Where none does, no place is within one. `sizing` looks for two other patterns so: a common
// function would only pass the patterns on.
pub fn has_script_group(s: &[u8]) -> bool
    ensures { result ≡ false → Scriptless s.now }
{
    text_search::contains(s, b"_(") | text_search::contains(s, b"^(")
}

// The same as `is_inside_subscript_context`, and quicker in a text that has no script group. `scripts` is what a round has found out about its text:
// as a closure it would be no plainer.
pub fn is_inside_script(s: &[u8], pos: usize, scripts: bool) -> bool
    requires place { Place s.now pos }
    requires scriptless { scripts ≡ false → Scriptless s.now }
    ensures { result ≡ is_inside_subscript_context 0 (before s.now pos) }
{
    scripts && is_inside_subscript_context(s, pos)
}

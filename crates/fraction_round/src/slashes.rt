// What becomes of a slash: its operands, from the searches to its left and to its right. No text is written here.
ghost use Rattle.std.specs.Prelude.{false, ◌≡◌, ◌<◌, length};
ghost use Rattle.spec.specs.Fractions.{Done};
ghost use Rattle.fraction_operands.specs.Places.{Place};
ghost use Rattle.fraction_numerators.specs.Script.{Scriptless};
ghost use Rattle.fraction_left.specs.Left.{Kept};
ghost use Rattle.fraction_round.specs.Slash.{Numerator, Slashed};

use super::{Barred, Operands};
use fraction_left::Marks;
use text_symbols::{Class, Span};

// The numerator of the slash at `i`, where it stands in no script and has one. `scripts` says whether the text may have a script group.
fn numerator_of(s: &[u8], i: usize, scripts: bool) -> Option<Span>
    requires place { Place s.now i }
    requires scriptless { scripts ≡ false → Scriptless s.now }
    ensures { Numerator s.now i result }
{
    if fraction_numerators::is_inside_script(s, i, scripts) {
        return None;
    }
    let end = text_symbols::run_start(s, i, Class::Blank);
    let start = fraction_numerators::find_fraction_part_before(s, end)?;
    Some(Span { start, end })
}

// The operands of the slash at `i`, or nothing where it stays, in a round that has done what the marks say. If the slash is left, it gets its mark, and
// stays.
pub fn slash_at(
    s: &[u8],
    i: usize,
    scripts: bool,
    marks: &mut Marks,
) -> Result<Option<Operands>, Barred>
    requires place { Place s.now i }
    requires i_in_bounds { i < length s.now }
    requires scriptless { scripts ≡ false → Scriptless s.now }
    ensures { (done : Done) → Kept marks.old (length s.now) done → Slashed s.now marks.new i done result }
{
    let Some(num) = numerator_of(s, i, scripts) else {
        return Ok(None);
    };
    if marks.is_left(s, num.start) {
        marks.mark(i);
        return Ok(None);
    }
    let start = text_symbols::run_end(s, i + 1, Class::Blank);
    if fraction_denominators::is_barred(s, start) {
        return Err(Barred);
    }
    let Some(end) = fraction_denominators::find_fraction_part_after(s, start) else {
        return Ok(None);
    };
    let den = Span { start, end };
    Ok(Some(Operands { num, den }))
}

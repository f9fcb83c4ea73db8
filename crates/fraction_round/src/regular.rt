// convert_regular_fractions: one round. The numerator is found in the text as the round began, and as many symbols as lie from
// its start to the slash are dropped from the end of what was written. So a numerator may not reach into text that the round
// has rewritten: such a slash is left for the next round, and so is one whose numerator begins right behind a slash that was
// left (document 02's A4).
ghost use Rattle.std.specs.Prelude.{◌≤◌};
ghost use Rattle.spec.specs.Result.{most_symbols};
ghost use Rattle.text_symbols.specs.Parts.{part};
ghost use Rattle.text.specs.Writer.{Regions, started};
ghost use Rattle.fraction_round.specs.Turn.{Rounded};

use super::Barred;
use super::slashes::slash_at;
use super::writing::put_converted;
use fraction_left::Marks;
use text::{TextPlace, Writer};

// Writes the text at `source` to the region at `to`, with its fractions, and answers the new length. Whatever the marks hold, they are cleared first.
pub fn convert_regular_fractions(
    work: &mut [u8],
    source: TextPlace,
    to: usize,
    marks: &mut Marks,
) -> Result<usize, Barred>
    requires regions { Regions work.old source.at source.n (started to) }
    requires n_le_most_symbols { source.n ≤ most_symbols }
    ensures { Rounded (part source.at source.n work.old) work.old work.new to result }
{
    let TextPlace { at: from, n } = source;
    let end = from + n;
    let scripts = fraction_numerators::has_script_group(&work[from..end]);
    marks.clear(n);
    let mut out = Writer::new(to);
    let mut i = 0;
    // The step varies: with a slash that converts, the round goes on behind the denominator. And it drops symbols from the end of what was
    // written, so it is not the sweep of the other stages.
    while i < n {
        let b = work[from + i];
        if b == b'/' {
            if let Some(f) = slash_at(&work[from..end], i, scripts, marks)? {
                out = put_converted(work, source, out, i, f);
                i = f.den.end;
                marks.rewrite(i);
                continue;
            }
        }
        out = out.put(work, b);
        i += 1;
    }
    Ok(out.count)
}

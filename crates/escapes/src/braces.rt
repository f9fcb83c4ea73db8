// Braces that are set notation become `\{` and `\}`. A brace groups behind a script sign, another brace, a letter, a digit or a
// backslash. Its closer goes with it: instead of the Rust's stack, the opener is looked for backwards.
ghost use Rattle.std.specs.Prelude.{◌+◌, ◌≤◌, ◌<◌, ◌≡◌, reverse, length};
ghost use Rattle.spec.specs.Result.{stage, most_symbols};
ghost use Rattle.spec.specs.Finish.{groups_behind, top, brace, escape_set_braces};
ghost use Rattle.text_symbols.specs.Parts.{part};
ghost use Rattle.text.specs.Writer.{Room, Appended, Regions};
ghost use Rattle.text.specs.Stage.{Ready, Staged};
ghost use Rattle.escapes.specs.Braces.{stack_of, bare_at};

use text::{Due, Progress, TextPlace, Writer};

// Whether a brace behind this symbol groups.
fn is_grouping(before: u8) -> bool
    ensures { result ≡ groups_behind before }
{
    (before == b'_')
        | ((before == b'^')
            | ((before == b'{')
                | ((before == b'}') | (text_symbols::is_alnum(before) | (before == b'\\')))))
}

// Whether the last brace that is open at the text's end groups. With none open, its closer stays bare.
fn open_groups(s: &[u8]) -> bool
    requires { length s.now ≤ most_symbols }
    ensures { result ≡ top (stack_of (reverse s.now)) }
{
    text_closing::find_closer_back(s, b'}', b'{').map_or(
        true,
        |at| is_grouping(text_search::symbol_before(s, at)),
    )
}

// Whether the symbol at a place is written as it is.
fn is_bare(s: &[u8], i: usize) -> bool
    requires { (i < length s.now) × (length s.now ≤ most_symbols) }
    ensures { result ≡ bare_at s.now i }
{
    match s[i] {
        b'{' => is_grouping(text_search::symbol_before(s, i)),
        b'}' => open_groups(&s[..i]),
        _ => true,
    }
}

// Writes the text at `source`, a backslash before those that are not bare.
fn escape(work: &mut [u8], source: TextPlace, out: Writer) -> Writer
    requires regions { Regions work.old source.at source.n out }
    requires n_le_most_symbols { source.n ≤ most_symbols }
    ensures { Appended work.old work.new out result (escape_set_braces (part source.at source.n work.old)) }
{
    let TextPlace { at: from, n } = source;
    let end = from + n;
    let mut out = out;
    for i in 0..n {
        let b = work[from + i];
        if !is_bare(&work[from..end], i) {
            out = out.put(work, b'\\');
        }
        out = out.put(work, b);
    }
    out
}

// The stage. A text with no opening brace stays where it is: its closers are unmatched, and stay bare.
pub fn escape_set_braces(work: &mut [u8], text: Progress) -> Progress
    requires { Ready work.old text }
    ensures { Staged work.old work.new text result (stage escape_set_braces) }
{
    let Some(Due { source, out, .. }) = text::due_for(work, text, b"{") else {
        return text;
    };
    escape(work, source, out).finished()
}

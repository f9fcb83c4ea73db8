// A thin space `\;` is dropped behind a control word, which carries its own spacing. Whether one stands there is told by the last
// backslash since the thin space before; what was written since then is what was read.
#![tactic(auto)]

ghost use Rattle.std.specs.Prelude.{◌≡◌, reverse};
ghost use Rattle.spec.specs.Result.{stage, most_symbols};
ghost use Rattle.spec.specs.Finish.{atom_commands, one_of, spacing, gap, drop_thin_space_after_commands};
ghost use Rattle.text_symbols.specs.Parts.{part};
ghost use Rattle.text.specs.Writer.{Appended, Regions};
ghost use Rattle.text.specs.Stage.{Ready, Staged};
ghost use Rattle.thin_spaces.specs.Thin.{is_argument, gap_if};

use text::{Due, Progress, TextPlace, Writer};
use text_symbols::Class;

// A command that sets an atom: a word behind it still wants a space.
fn is_atom_command(word: &[u8]) -> bool
    ensures { result ≡ one_of atom_commands word.now }
{
    let commands: [&[u8]; 5] = [b"text", b"mathrm", b"operatorname", b"mathbf", b"mathit"];
    commands.contains(&word)
}

// What stands behind a control word: nothing, or an argument in braces.
fn is_argument(tail: &[u8]) -> bool
    ensures { result ≡ is_argument tail.now }
{
    match tail {
        [] => true,
        [first, .., last] => (*first == b'{') & (*last == b'}'),
        _ => false,
    }
}

// Whether the text, which stands behind a backslash, is a command with its own spacing.
fn is_spacing(s: &[u8]) -> bool
    ensures { result ≡ spacing s.now }
{
    let end = text_symbols::run_end(s, 0, Class::Letter);
    (0 < end) & (is_argument(&s[end..]) & !is_atom_command(&s[..end]))
}

// Whether a thin space stays behind this text: it is told by what stands behind the last backslash.
fn keeps_gap(s: &[u8]) -> bool
    ensures { gap (reverse s.now) ≡ gap_if result }
{
    let behind = text_symbols::run_start(s, s.len(), Class::Except(b'\\'));
    behind == 0 || !is_spacing(&s[behind..])
}

// Writes the text at `source`, thin spaces dropped. `start` is behind the last thin space.
fn drop_gaps(work: &mut [u8], source: TextPlace, out: Writer) -> Writer
    requires { Regions work.old source.at source.n out }
    ensures { Appended work.old work.new out result (drop_thin_space_after_commands (part source.at source.n work.old)) }
{
    let TextPlace { at: from, n } = source;
    let end = from + n;
    let mut out = out;
    let mut start = 0;
    let mut i = 0;
    // The step varies: a thin space has two symbols.
    while i < n {
        let at = from + i;
        if text_search::starts_with(&work[at..end], b"\\;") {
            if keeps_gap(&work[from + start..at]) {
                out = out.put_all(work, b"\\;");
            }
            i += 2;
            start = i;
            continue;
        }
        out = out.copy_one(work, at);
        i += 1;
    }
    out
}

// The stage: `\alpha\;\text{dB}` becomes `\alpha\text{dB}`.
pub fn drop_thin_space_after_commands(work: &mut [u8], text: Progress) -> Progress
    requires { Ready work.old text }
    ensures { Staged work.old work.new text result (stage drop_thin_space_after_commands) }
{
    let Some(Due { source, out, .. }) = text::due_for(work, text, b"\\;") else {
        return text;
    };
    drop_gaps(work, source, out).finished()
}

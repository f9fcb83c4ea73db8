// Escapes: the solidus mark, set braces and the percent sign. Each is a stage; the solidus has two: a conversion begins with the one that
// sets the mark, and the other writes a solidus for it.
#![tactic(auto)]

mod braces;

ghost use Rattle.std.specs.Prelude.{[], ◌∷◌};
ghost use Rattle.spec.specs.Symbols.{bytes, solidus, contains};
ghost use Rattle.spec.specs.Result.{stage};
ghost use Rattle.spec.specs.Pipeline.{mark_solidus, unmark_solidus};
ghost use Rattle.spec.specs.Finish.{escape_percent};
ghost use Rattle.text.specs.Stage.{Ready, Staged};
ghost use Rattle.text.specs.Untouched.{Untouched};

pub use braces::escape_set_braces;
use text::Progress;

// `\/` becomes the mark, which no fraction sees.
pub fn mark_solidus(work: &mut [u8], text: Progress) -> Progress
    requires { Ready work.old text }
    ensures staged { Staged work.old work.new text result (stage mark_solidus) }
    ensures untouched { Untouched work.old work.new text result (contains (bytes "\\/") ∷ []) }
{
    pattern_rewriting::replace(work, text, b"\\/", b"\x01")
}

// The mark becomes a slash.
pub fn unmark_solidus(work: &mut [u8], text: Progress) -> Progress
    requires { Ready work.old text }
    ensures staged { Staged work.old work.new text result (stage unmark_solidus) }
    ensures untouched { Untouched work.old work.new text result (contains (solidus ∷ []) ∷ []) }
{
    pattern_rewriting::replace(work, text, b"\x01", b"/")
}

// `%` begins a comment in LaTeX, so it becomes `\%`.
pub fn escape_percent(work: &mut [u8], text: Progress) -> Progress
    requires { Ready work.old text }
    ensures staged { Staged work.old work.new text result (stage escape_percent) }
    ensures untouched { Untouched work.old work.new text result (contains (bytes "%") ∷ []) }
{
    pattern_rewriting::replace(work, text, b"%", b"\\%")
}

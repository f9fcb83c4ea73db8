// Subscripts and superscripts: a group in parentheses, a text block, or two letters or more behind `_` or `^` get braces. Each
// rewriting is a stage of its own, for one sign.
#![tactic(auto)]

ghost use Rattle.std.specs.Prelude.{◌<◌, [], ◌∷◌, length};
ghost use Rattle.spec.specs.Symbols.{bytes, contains};
ghost use Rattle.spec.specs.Sweep.{sweep};
ghost use Rattle.spec.specs.Matches.{somewhere, wrap_text_match, wrap_multichar_match, script_matches, subscript_matches, superscript_matches};
ghost use Rattle.spec.specs.Result.{stage};
ghost use Rattle.spec.specs.Scripts.{convert_paren_to_brace, wrap_text_subscripts, wrap_multichar_scripts, convert_scripts, convert_subscripts, convert_superscripts};
ghost use Rattle.text.specs.Stage.{Ready, Staged};
ghost use Rattle.text.specs.Untouched.{Untouched};
ghost use Rattle.pattern_rewriting.specs.Edits.{pattern_rule, pattern_at};

use pattern_rewriting::{PatternKind, Rewriting};
use text::Progress;

// Where the pattern stands, the sign and an opening brace are written, and what the kind keeps.
fn in_braces(
    work: &mut [u8],
    text: Progress,
    sign: u8,
    kind: PatternKind,
    pattern: &[u8],
) -> Progress
    requires ready { Ready work.old text }
    requires pattern_some { 0 < length pattern.now }
    ensures staged { Staged work.old work.new text result (stage (sweep (pattern_rule kind pattern.now (sign ∷ bytes "{")) 0 0)) }
    ensures untouched { Untouched work.old work.new text result (somewhere (pattern_at kind pattern.now) 0 ∷ []) }
{
    let left = &[sign, b'{'];
    let rewriting = Rewriting {
        kind,
        pattern,
        left,
    };
    pattern_rewriting::convert_pattern(work, text, rewriting)
}

// `_(`..`)` becomes `_{`..`}`; what stands inside is copied as it is.
pub fn convert_paren_to_brace(work: &mut [u8], text: Progress, sign: u8) -> Progress
    requires { Ready work.old text }
    ensures staged { Staged work.old work.new text result (stage (convert_paren_to_brace sign)) }
    ensures untouched { Untouched work.old work.new text result (contains (sign ∷ bytes "(") ∷ []) }
{
    in_braces(work, text, sign, PatternKind::ParenToBrace, &[sign, b'('])
}

// `_\text{`..`}` becomes `_{\text{`..`}}`.
pub fn wrap_text_subscripts(work: &mut [u8], text: Progress, sign: u8) -> Progress
    requires { Ready work.old text }
    ensures staged { Staged work.old work.new text result (stage (wrap_text_subscripts sign)) }
    ensures untouched { Untouched work.old work.new text result (wrap_text_match sign ∷ []) }
{
    // The sign comes first, so the pattern is no byte string.
    let pattern = [sign, b'\\', b't', b'e', b'x', b't', b'{'];
    in_braces(work, text, sign, PatternKind::WrapText, &pattern)
}

// `_abc` becomes `_{abc}`: LaTeX takes one symbol only.
pub fn wrap_multichar_scripts(work: &mut [u8], text: Progress, sign: u8) -> Progress
    requires { Ready work.old text }
    ensures staged { Staged work.old work.new text result (stage (wrap_multichar_scripts sign)) }
    ensures untouched { Untouched work.old work.new text result (wrap_multichar_match sign ∷ []) }
{
    in_braces(work, text, sign, PatternKind::WrapMultichar, &[sign])
}

fn convert_scripts(work: &mut [u8], text: Progress, sign: u8) -> Progress
    requires { Ready work.old text }
    ensures staged { Staged work.old work.new text result (convert_scripts sign) }
    ensures untouched { Untouched work.old work.new text result (script_matches sign) }
{
    let grouped = convert_paren_to_brace(work, text, sign);
    let blocked = wrap_text_subscripts(work, grouped, sign);
    wrap_multichar_scripts(work, blocked, sign)
}

// `x_(i + 1)` becomes `x_{i + 1}`, `x_max` becomes `x_{max}`.
pub fn convert_subscripts(work: &mut [u8], text: Progress) -> Progress
    requires { Ready work.old text }
    ensures staged { Staged work.old work.new text result convert_subscripts }
    ensures untouched { Untouched work.old work.new text result subscript_matches }
{
    convert_scripts(work, text, b'_')
}

// The same for `^`.
pub fn convert_superscripts(work: &mut [u8], text: Progress) -> Progress
    requires { Ready work.old text }
    ensures staged { Staged work.old work.new text result convert_superscripts }
    ensures untouched { Untouched work.old work.new text result superscript_matches }
{
    convert_scripts(work, text, b'^')
}

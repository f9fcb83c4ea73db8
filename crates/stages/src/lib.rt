// All stages, in the Rust's order and by its names.
#![tactic(auto)]

ghost use Rattle.std.specs.Prelude.{◌∷◌, map};
ghost use Rattle.spec.specs.Result.{stage};
ghost use Rattle.spec.specs.Definitions.{apply_definitions_outside_text};
ghost use Rattle.spec.specs.Matches.{defined_match, text_opening};
ghost use Rattle.spec.specs.Fractions.{convert_fractions};
ghost use Rattle.spec.specs.Finish.{size_delimiters_to_content};
ghost use Rattle.spec.specs.Pipeline.{on_display, convert_syntax, typst_to_latex, definitions_or};
ghost use Rattle.text.specs.Stage.{Ready, Answered, Staged, shown};
ghost use Rattle.text.specs.Untouched.{Untouched};
ghost use Rattle.stages.specs.Fit.{Bare, Admissible};

use text::Progress;

// The body of the Rust's `typst_to_latex`.
pub fn convert(work: &mut [u8], text: Progress, table: &[u8], display: bool, field: u32) -> Progress
    requires ready { Ready work.old text }
    requires admissible { Admissible table.now (shown text work.old) }
    ensures { Answered work.old work.new text result (typst_to_latex (definitions_or table.now) display field) }
{
    let t = escapes::mark_solidus(work, text);
    let t = call_single::convert_op(work, t);
    let t = cases::convert_cases(work, t);
    let t = attach::convert_attach(work, t);
    let t = call_single::convert_bb(work, t);
    let t = call_single::convert_bold(work, t);
    let t = binom::convert_binom(work, t);
    let t = call_single::convert_upright(work, t);
    let t = call_single::convert_floor_ceil_abs(work, t);
    let t = quotes::convert_text_quotes(work, t);
    let t = apply_definitions_outside_text(work, t, table);
    let t = convert_syntax(work, t, display, field);
    let t = alignment::convert_alignment(work, t);
    thin_spaces::drop_thin_space_after_commands(work, t)
}

// The Rust's `convert_syntax`.
fn convert_syntax(work: &mut [u8], text: Progress, display: bool, field: u32) -> Progress
    requires ready { Ready work.old text }
    requires bare { Bare (shown text work.old) }
    ensures { Answered work.old work.new text result (convert_syntax display field) }
{
    let t = pattern_rewriting::convert_sqrt(work, text);
    let t = name_words::convert_functions(work, t);
    let t = name_words::convert_operators(work, t);
    let t = name_words::convert_words(work, t);
    let t = name_words::convert_greek_capitals(work, t);
    let t = scripts::convert_subscripts(work, t);
    let t = scripts::convert_superscripts(work, t);
    let t = convert_fractions(work, t, display);
    let t = escapes::unmark_solidus(work, t);
    let t = escapes::escape_set_braces(work, t);
    let t = lr::convert_lr(work, t);
    let t = size_delimiters_to_content(work, t, display, field);
    escapes::escape_percent(work, t)
}

// A text that has been refused is left, since its table may be faulty.
fn apply_definitions_outside_text(work: &mut [u8], text: Progress, table: &[u8]) -> Progress
    requires ready { Ready work.old text }
    requires admissible { Admissible table.now (shown text work.old) }
    ensures answered { Answered work.old work.new text result (apply_definitions_outside_text (definitions_or table.now)) }
    ensures untouched { Untouched work.old work.new text result (text_opening ∷ map defined_match (definitions_or table.now)) }
{
    text?;
    definitions::apply_definitions_outside_text(work, text, table)
}

// Only on display.
fn convert_fractions(work: &mut [u8], text: Progress, display: bool) -> Progress
    requires { Ready work.old text }
    ensures { Staged work.old work.new text result (on_display display convert_fractions) }
{
    if display {
        return fractions::convert_fractions(work, text);
    }
    text
}

// Only on display.
fn size_delimiters_to_content(
    work: &mut [u8],
    text: Progress,
    display: bool,
    field: u32,
) -> Progress
    requires { Ready work.old text }
    ensures { Staged work.old work.new text result (on_display display (stage (size_delimiters_to_content field))) }
{
    if display {
        return sizing::size_delimiters_to_content(work, text, field);
    }
    text
}

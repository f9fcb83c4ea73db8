// Functions, operators, Greek names and words: the tables of the Rust's convert_syntax, applied row by row. Where no row matches, every
// byte stays as it is; a text with blocks that are to be held out is rewritten all the same.
#![tactic(auto)]

mod tables;

ghost use Rattle.std.specs.Prelude.{◌∷◌, ◌++◌, map};
ghost use Rattle.spec.specs.Rows.{function_mappings, operator_replacements, greek_letters, word_mappings, greek_capitals};
ghost use Rattle.spec.specs.Words.{replace_rows, convert_words, convert_greek_capitals};
ghost use Rattle.spec.specs.Matches.{literal_match, greek_match, word_or_literal_match, capital_match, text_opening, roman_opening};
ghost use Rattle.text.specs.Stage.{Ready, Answered, Staged};
ghost use Rattle.text.specs.Untouched.{Untouched};
ghost use Rattle.held_stages.specs.Outside.{UnmarkedProgress};

use name_entry::Bounds;
use text::Progress;

// `sin(`, `cos(` and so on get a backslash, wherever they stand.
pub fn convert_functions(work: &mut [u8], text: Progress) -> Progress
    requires { Ready work.old text }
    ensures staged { Staged work.old work.new text result (replace_rows function_mappings) }
    ensures untouched { Untouched work.old work.new text result (map literal_match function_mappings) }
{
    name_tables::apply_rows(work, text, 0, Bounds::Literal, &tables::FUNCTIONS)
}

// `>=`, `->` and so on become commands, wherever they stand.
pub fn convert_operators(work: &mut [u8], text: Progress) -> Progress
    requires { Ready work.old text }
    ensures staged { Staged work.old work.new text result (replace_rows operator_replacements) }
    ensures untouched { Untouched work.old work.new text result (map literal_match operator_replacements) }
{
    name_tables::apply_rows(work, text, 0, Bounds::Literal, &tables::OPERATORS)
}

// Greek names and words, which spare `\text` and `\mathrm` blocks. Lengths count the held blocks in full.
pub fn convert_words(work: &mut [u8], text: Progress) -> Progress
    requires ready { Ready work.old text }
    requires unmarked_progress { UnmarkedProgress work.old text }
    ensures answered { Answered work.old work.new text result convert_words }
    ensures untouched { Untouched work.old work.new text result (text_opening ∷ (roman_opening ∷ (map greek_match greek_letters ++ map word_or_literal_match word_mappings))) }
{
    let place = text?;
    let held = held_stages::hold_both(work, place);
    let outside = Ok(held.text);
    let greek = name_tables::apply_rows(
        work,
        outside,
        held.extra,
        Bounds::Greek,
        name_greek::greek(),
    );
    let words = name_tables::apply_rows(work, greek, held.extra, Bounds::Word, &tables::WORDS);
    held_stages::put_all_back(work, words, held)
}

// Phi and Psi as whole words, in block text too.
pub fn convert_greek_capitals(work: &mut [u8], text: Progress) -> Progress
    requires { Ready work.old text }
    ensures staged { Staged work.old work.new text result convert_greek_capitals }
    ensures untouched { Untouched work.old work.new text result (map capital_match greek_capitals) }
{
    name_tables::apply_rows(work, text, 0, Bounds::Capital, &tables::CAPITALS)
}

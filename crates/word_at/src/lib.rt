// The word under the pointer, document 02's A14: what the word at a byte place of a formula stands for, as a part of the formula or of the
// table. No bytes are copied. The formula, the table and the place are handed on one by one, as the interface has them.
#![tactic(auto)]

ghost use Rattle.std.specs.Prelude.{◌≡◌, ◌-◌};
ghost use Rattle.spec.specs.Result.{passed};
ghost use Rattle.spec.specs.WordAt.{word_at, number_of, part_of, pointed as pointed_part, stands_for};
ghost use Rattle.entry_ends.specs.Answer.{Checks};
ghost use Rattle.text_symbols.specs.Trim.{Within};
ghost use Rattle.word_at.specs.Parts.{FindsWord, HandsBack};

use text::Refusal;
use text_symbols::{Class, Span};

// Where the part lies that a word stands for.
#[derive(Clone, Copy)]
pub enum WordPlace {
    InFormula(Span),
    InTable(Span),
}

// The part itself, or the formula's empty beginning. Both slices have one lifetime, since a part of either is handed back.
pub fn word_at<'a>(formula: &'a [u8], table: &'a [u8], place: usize) -> &'a [u8]
    ensures { HandsBack formula.entry table.entry (part_of (word_at formula.now table.now place)) result }
{
    let Ok(found) = find_word(formula, table, place) else {
        return &formula[..0];
    };
    match found {
        WordPlace::InFormula(Span { start, end }) => &formula[start..end],
        WordPlace::InTable(Span { start, end }) => &table[start..end],
    }
}

// The number of the refusal, or 0, as document 02 asks.
pub fn word_number(formula: &[u8], table: &[u8], place: usize) -> u64
    ensures { result ≡ number_of (word_at formula.now table.now place) }
{
    match find_word(formula, table, place) {
        Ok(_) => 0,
        Err(why) => u64::from(why),
    }
}

// Where the part lies, or why there is none. The attribute names the laws of both ways: an answer goes by the name of a step, and would refuse
// a right step of another name too.
#[tactic(auto, using(crate::specs::Ways::finds))]
pub fn find_word(formula: &[u8], table: &[u8], place: usize) -> Result<WordPlace, Refusal>
    ensures { FindsWord formula.now table.now (word_at formula.now table.now place) result }
{
    entry_ends::check(formula, table)?;
    pointed(formula, table, place)
}

// The same where numbers 2, 1 and 3 let the call pass: number 16, or what the longest run of letters and digits around the place stands for.
fn pointed(formula: &[u8], table: &[u8], place: usize) -> Result<WordPlace, Refusal>
    requires { Checks formula.now table.now (Ok tt) }
    ensures { FindsWord formula.now table.now (pointed_part table.now place formula.now) result }
{
    if !text_symbols::is_alnum(text_search::symbol(formula, place)) {
        return Err(Refusal::NoWord);
    }
    let word = Span {
        start: text_symbols::run_start(formula, place, Class::Alnum),
        end: text_symbols::run_end(formula, place, Class::Alnum),
    };
    Ok(stands_for(formula, table, word))
}

// A defined name of two or more bytes stands for its LaTeX, and any other word for itself.
fn stands_for(formula: &[u8], table: &[u8], word: Span) -> WordPlace
    requires checks { Checks formula.now table.now (Ok tt) }
    requires within { Within formula.now word }
    ensures { FindsWord formula.now table.now (passed (stands_for formula.now table.now word.start (word.end - word.start))) (Ok result) }
{
    let Span { start, end } = word;
    if end - start < 2 {
        return WordPlace::InFormula(word);
    }
    let from = table::first_place(table);
    let Some(found) = table_names::find_named(table, from, &formula[start..end]) else {
        return WordPlace::InFormula(word);
    };
    WordPlace::InTable(Span {
        start: found.latex,
        end: found.next,
    })
}

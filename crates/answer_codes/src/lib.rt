// The answers of the exported functions in numbers, which C and Rust can take.
#![tactic(auto)]

ghost use Rattle.std.specs.Prelude.{◌≡◌, false};
ghost use Rattle.spec.specs.WordAt.{number_of, part_of};
ghost use Rattle.entry_ends.specs.Answer.{meaning};
ghost use Rattle.word_at.specs.Parts.{meaning as word_meaning};
ghost use Rattle.answer_codes.specs.Codes.{result_of, plain_answer_of, part_coded, Ordered};

use entry_ends::Answer;
use text::Refusal;
use word_at::WordPlace;

// 0, and the bytes of LaTeX in `count`; or the number of the refusal, and 0.
pub fn answer_code(answer: Answer, count: &mut usize) -> u64
    ensures answer_value { meaning answer ≡ result_of result count.new }
    ensures count_after { (result ≡ 0 → ⊥) → count.new ≡ 0 }
{
    match answer {
        Ok(n) => {
            *count = n;
            0
        }
        Err(why) => {
            *count = 0;
            u64::from(why)
        }
    }
}

// Whether the answer is yes, and the atoms, or 0.
pub fn plain_code(answer: Option<usize>, atoms: &mut usize) -> bool
    ensures answer_value { answer ≡ plain_answer_of result atoms.new }
    ensures atoms_after { result ≡ false → atoms.new ≡ 0 }
{
    *atoms = answer.unwrap_or(0);
    answer.is_some()
}

// 0, and the part by its side, place and length; or the number of the refusal, and the formula's empty beginning.
pub fn word_code(
    found: Result<WordPlace, Refusal>,
    defined: &mut bool,
    start: &mut usize,
    length: &mut usize,
) -> u64
    requires { Ordered found }
    ensures value { result ≡ number_of (word_meaning found) }
    ensures length_after { part_coded defined.new start.new length.new ≡ part_of (word_meaning found) }
{
    let place = match found {
        Ok(place) => place,
        Err(why) => {
            *defined = false;
            *start = 0;
            *length = 0;
            return u64::from(why);
        }
    };
    match place {
        WordPlace::InFormula(word) => {
            *defined = false;
            *start = word.start;
            *length = word.end - word.start;
        }
        WordPlace::InTable(latex) => {
            *defined = true;
            *start = latex.start;
            *length = latex.end - latex.start;
        }
    }
    0
}

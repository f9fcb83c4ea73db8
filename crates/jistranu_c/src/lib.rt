// The static library that C and Rust link: exports the functions of the crate `jistranu`, by their names and with their clauses.
#![tactic(auto)]

ghost use Rattle.std.specs.Prelude.{◌≡◌, false};
ghost use Rattle.spec.specs.Pipeline.{Call};
ghost use Rattle.spec.specs.WordAt.{word_at, number_of, part_of};
ghost use Rattle.plain_check.specs.Check.{Checked as PlainChecked};
ghost use Rattle.answer_codes.specs.Codes.{result_of, plain_answer_of, part_coded};

// 0, and in `count` the bytes of LaTeX at the start of `output`; or the number of the refusal, and 0.
#[unsafe(no_mangle)]
pub extern "C" fn jistranu_typst_to_latex(
    formula: &[u8],
    table: &[u8],
    display: bool,
    field: u32,
    work: &mut [u8],
    output: &mut [u8],
    count: &mut usize,
) -> u64
    ensures call { Call formula.now table.now display field work.old output.old (result_of result count.new) work.new output.new }
    ensures count_after { (result ≡ 0 → ⊥) → count.new ≡ 0 }
{
    jistranu::jistranu_typst_to_latex(formula, table, display, field, work, output, count)
}

// Whether the formula is plain, and in `atoms` how many atoms it has, or 0.
#[unsafe(no_mangle)]
pub extern "C" fn jistranu_plain_check(formula: &[u8], atoms: &mut usize) -> bool
    ensures plain_checked { PlainChecked formula.now (plain_answer_of result atoms.new) }
    ensures atoms_after { result ≡ false → atoms.new ≡ 0 }
{
    jistranu::jistranu_plain_check(formula, atoms)
}

// 0, and the part that the word at the place stands for, by its side, its start and its length; or the number of the refusal.
#[unsafe(no_mangle)]
pub extern "C" fn jistranu_word_at(
    formula: &[u8],
    table: &[u8],
    place: usize,
    defined: &mut bool,
    start: &mut usize,
    length: &mut usize,
) -> u64
    ensures value { result ≡ number_of (word_at formula.now table.now place) }
    ensures length_after { part_coded defined.new start.new length.new ≡ part_of (word_at formula.now table.now place) }
{
    jistranu::jistranu_word_at(formula, table, place, defined, start, length)
}

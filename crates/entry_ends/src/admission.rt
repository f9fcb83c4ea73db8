// Whether a formula, its table and its tall field are admitted.
ghost use Rattle.std.specs.Prelude.{◌≡◌, ◌≤◌, length};
ghost use Rattle.spec.specs.Pipeline.{least_work};
ghost use Rattle.spec.specs.Symbols.{foreign, any};
ghost use Rattle.entry_ends.specs.Answer.{Checks, Admits};

use super::output::copy_over;
use text::{Progress, Refusal, TextPlace};
use text_symbols::Class;

// Numbers 2, 1 and 3, in this order, of a call's formula and table.
pub fn check(formula: &[u8], table: &[u8]) -> Result<(), Refusal>
    ensures { Checks formula.now table.now result }
{
    if text::MOST_FORMULA < formula.len() {
        return Err(Refusal::LongFormula);
    }
    if has_foreign(formula) {
        return Err(Refusal::ForeignByte);
    }
    if table_faults::is_faulty(table) {
        return Err(Refusal::FaultyTable);
    }
    Ok(())
}

// The formula as the first text of the work buffer, or its refusal: number 15, then the checks.
pub fn admit(work: &mut [u8], formula: &[u8], table: &[u8], field: u32) -> Progress
    requires { least_work ≤ length work.old }
    ensures { Admits formula.now table.now field work.old work.new result }
{
    if text::ALL_TALL < field {
        return Err(Refusal::TallField);
    }
    check(formula, table)?;
    copy_over(work, formula);
    Ok(TextPlace {
        at: 0,
        n: formula.len(),
    })
}

// Number 1: whether a byte of the formula is foreign. `is_faulty_latex` of `table_faults` is the like for another class: one function for
// both would only be `all_in` again.
fn has_foreign(formula: &[u8]) -> bool
    ensures { result ≡ any foreign formula.now }
{
    !text_symbols::all_in(formula, Class::Formula)
}

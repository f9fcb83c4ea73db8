// Number 3: what makes a table faulty. The records are counted first, so that what follows looks at no more than 64.
#![tactic(auto)]

ghost use Rattle.std.specs.Prelude.{◌≡◌};
ghost use Rattle.spec.specs.Table.{records, definitions, faulty_name, faulty_latex, faulty};
ghost use Rattle.table.specs.Reading.{Lies, first_place, definition_at};
ghost use Rattle.table.specs.Listed.{listed};
ghost use Rattle.table.specs.Sound.{refused};
ghost use Rattle.table_faults.specs.Faults.{overfull, faulty_first};

use table::{Record, first_place, listed_at, record_at};
use table_names::find_named;
use text_symbols::Class;

// Number 3's limits.
pub const MOST_BYTES: usize = 32_768;

pub const MOST_RECORDS: usize = 64;

// Whether number 3 refuses the table.
pub fn is_faulty(table: &[u8]) -> bool
    ensures { result ≡ refused (definitions table.now) }
{
    MOST_BYTES < table.len() || is_overfull(table) || has_faulty_record(table)
}

// Whether a record can't be read, or there are too many.
fn is_overfull(table: &[u8]) -> bool
    ensures { result ≡ overfull 0 (records table.now) }
{
    let mut at = first_place(table);
    for _count in 0..=MOST_RECORDS {
        match record_at(table, at) {
            Ok(Some(found)) => at = found.next,
            Ok(None) => return false,
            Err(_) => return true,
        }
    }
    true
}

// Whether one of the records has a fault of its own, or the name of a later one.
fn has_faulty_record(table: &[u8]) -> bool
    ensures { result ≡ faulty (listed table.now (first_place table.now)) }
{
    let mut at = first_place(table);
    // The step varies: a record says where the next one begins.
    while let Some(found) = listed_at(table, at) {
        if is_faulty_record(table, found) {
            return true;
        }
        at = found.next;
    }
    false
}

fn is_faulty_record(table: &[u8], found: Record) -> bool
    requires { Lies table.now found }
    ensures { result ≡ faulty_first (definition_at table.now found) (listed table.now found.next) }
{
    let name = found.name_in(table);
    is_faulty_name(name)
        || is_faulty_latex(found.latex_in(table))
        || find_named(table, found.next, name).is_some()
}

// Whether the name is empty, not of letters and digits, or not begun by a letter.
fn is_faulty_name(name: &[u8]) -> bool
    ensures { result ≡ faulty_name name.now }
{
    !(text_symbols::is_letter(text_search::symbol(name, 0))
        && text_symbols::all_in(name, Class::Alnum))
}

// Whether a byte of the LaTeX is foreign or `$`. `has_foreign` of `entry_ends` is the like for another class: one function for both would
// only be `all_in` again.
fn is_faulty_latex(latex: &[u8]) -> bool
    ensures { result ≡ faulty_latex latex.now }
{
    !text_symbols::all_in(latex, Class::Latex)
}

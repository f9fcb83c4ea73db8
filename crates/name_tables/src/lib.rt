// Rows of a table, applied one after another: each row is a name as it is typed, and its LaTeX. `extra` stays the same while the text changes
// from row to row, so it is a parameter of its own.
#![tactic(auto)]

ghost use Rattle.std.specs.Prelude.{◌≡◌, true, [], ◌∷◌, map};
ghost use Rattle.spec.specs.Sweep.{sweep};
ghost use Rattle.spec.specs.Rows.{Row as DefinedRow};
ghost use Rattle.spec.specs.Words.{literal};
ghost use Rattle.text.specs.Stage.{Ready};
ghost use Rattle.text.specs.Untouched.{Untouched};
ghost use Rattle.name_entry.specs.Sized.{sized, FitsWithBlocks, StagedWithin};
ghost use Rattle.name_greek.specs.Rows.{row_of};
ghost use Rattle.name_tables.specs.Kinds.{lent_row, bounds_of, row_rule, row_match, fair_row, fair_rows, sized_rows};

use name_entry::{Bounds, Entry, Pairs};
use name_greek::Row;
use text::Progress;

// What a row gives, in whichever form its table holds it: a name as it is typed, and its LaTeX.
pub trait NameRow {
    ghost row_of: { Self → DefinedRow };

    fn typst(&self) -> &[u8]
        ensures { result.now ≡ (row_of self.now).typst };

    fn latex(&self) -> &[u8]
        ensures { result.now ≡ (row_of self.now).latex };
}

// The rows of the constant tables, of one width.
impl NameRow for Row {
    ghost row_of = { row_of };

    fn typst(&self) -> &[u8] {
        name_greek::typst(self)
    }

    fn latex(&self) -> &[u8] {
        name_greek::latex(self)
    }
}

// A row of two lent texts, for a name or LaTeX that has no room in a row of the constant tables.
#[derive(Clone, Copy)]
pub struct LentRow<'a>(pub &'a [u8], pub &'a [u8]);

impl NameRow for LentRow<'_> {
    ghost row_of = { lent_row };

    fn typst(&self) -> &[u8] {
        self.0
    }

    fn latex(&self) -> &[u8] {
        self.1
    }
}

// Whether a word is replaced wherever it stands: it has `(`, `|` or a point in it.
fn is_literal(word: &[u8]) -> bool
    ensures { result ≡ literal word.now }
{
    word.iter()
        .any(|b| (*b == b'(') | ((*b == b'|') | (*b == b'.')))
}

// What may stand around a row's name: what the table says, or anything, for words that are replaced wherever they stand.
fn bounds_of(bounds: Bounds, typst: &[u8]) -> Bounds
    ensures { result ≡ bounds_of bounds typst.now }
{
    match bounds {
        Bounds::Word if is_literal(typst) => Bounds::Literal,
        other => other,
    }
}

// Applies a row. Where it matches nowhere, every byte stays as it is.
fn apply_row<R: NameRow>(
    work: &mut [u8],
    text: Progress,
    extra: usize,
    bounds: Bounds,
    row: &R,
) -> Progress
    requires ready { Ready work.old text }
    requires fits_with_blocks { FitsWithBlocks extra text }
    requires fair { fair_row (R.row_of row.now) ≡ true }
    ensures staged_within { StagedWithin work.old work.new text result extra (sized extra (sweep (row_rule bounds (R.row_of row.now)) 0 0)) }
    ensures untouched { Untouched work.old work.new text result (row_match bounds (R.row_of row.now) ∷ []) }
{
    let pattern = row.typst();
    let entry = Entry {
        bounds: bounds_of(bounds, pattern),
        pattern,
        fresh: row.latex(),
    };
    name_entry::apply(work, text, extra, &entry)
}

// Applies a table's rows in order, each a stage of its own. A row whose name is nowhere is passed over, so the pairs that occur stay known.
// Where none of them matches, every byte stays as it is.
pub fn apply_rows<R: NameRow>(
    work: &mut [u8],
    text: Progress,
    extra: usize,
    bounds: Bounds,
    table: &[R],
) -> Progress
    requires ready { Ready work.old text }
    requires fits_with_blocks { FitsWithBlocks extra text }
    requires fair { fair_rows (map R.row_of table.now) ≡ true }
    ensures staged_within { StagedWithin work.old work.new text result extra (sized_rows extra (row_rule bounds) (map R.row_of table.now)) }
    ensures untouched { Untouched work.old work.new text result (map (row_match bounds) (map R.row_of table.now)) }
{
    let mut done = text;
    let mut pairs = Pairs::new();
    pairs.mark(work, done);
    for row in table {
        if pairs.is_nowhere(work, done, row.typst()) {
            continue;
        }
        done = apply_row(work, done, extra, bounds, row);
        pairs.mark(work, done);
    }
    done
}

#[cfg(test)]
mod tests {
    use super::*;
    use text::TextPlace;

    // The name has 16 bytes and its LaTeX 31, more than the rows of the constant tables have room for.
    #[test]
    fn applies_a_long_lent_row(rt: HostRuntime) {
        let table = [LentRow(b"transconductance", b"\\operatorname{transconductance}")];
        let mut work = [0; 32768];
        work[..36].copy_from_slice(b"transconductance + transconductances");
        let text = Ok(TextPlace { at: 0, n: 36 });
        match apply_rows(&mut work, text, 0, Bounds::Word, &table) {
            Ok(TextPlace { at, n }) => {
                assert_eq!(rt;
                    work[at..at + n],
                    b"\\operatorname{transconductance} + transconductances"[..]
                )
            }
            Err(_) => assert!(rt; false, "refused"),
        }
    }
}

// The definitions of the table, applied outside of `\text{..}` blocks. Where none of them matches, every byte stays as it is; a text with
// blocks that are to be held out is rewritten all the same. `extra` stays the same while the text changes from definition to definition, so
// it is a parameter of its own.
#![tactic(auto)]

ghost use Rattle.std.specs.Prelude.{◌≡◌, false, List, [], ◌∷◌, map};
ghost use Rattle.std.proofs.Math.Option.{some};
ghost use Rattle.spec.specs.Table.{Definition, definitions, in_order};
ghost use Rattle.spec.specs.Definitions.{apply_definitions_outside_text};
ghost use Rattle.spec.specs.Matches.{defined_match, text_opening};
ghost use Rattle.text.specs.Stage.{Ready, Answered};
ghost use Rattle.text.specs.Untouched.{Untouched};
ghost use Rattle.name_entry.specs.Sized.{FitsWithBlocks, StagedWithin};
ghost use Rattle.table.specs.Reading.{definition_at};
ghost use Rattle.table.specs.Sound.{refused};
ghost use Rattle.held_stages.specs.Outside.{UnmarkedProgress};
ghost use Rattle.definitions.specs.Applying.{Usable, sized_definition, sized_definitions};

use name_entry::{Bounds, Entry};
use table::Record;
use text::Progress;

// Applies one definition. Names of one byte are skipped.
fn apply_definition(
    work: &mut [u8],
    text: Progress,
    extra: usize,
    table: &[u8],
    found: Record,
) -> Progress
    requires ready { Ready work.old text }
    requires fits_with_blocks { FitsWithBlocks extra text }
    requires usable { Usable table.now found }
    ensures staged_within { StagedWithin work.old work.new text result extra (sized_definition extra (definition_at table.now found)) }
    ensures untouched { Untouched work.old work.new text result (defined_match (definition_at table.now found) ∷ []) }
{
    let pattern = found.name_in(table);
    if pattern.len() == 1 {
        return text;
    }
    let entry = Entry {
        bounds: Bounds::Defined,
        pattern,
        fresh: found.latex_in(table),
    };
    name_entry::apply(work, text, extra, &entry)
}

// Applies all of them in their order, each a stage of its own.
fn apply_definitions(work: &mut [u8], text: Progress, extra: usize, table: &[u8]) -> Progress
    requires ready { Ready work.old text }
    requires fits_with_blocks { FitsWithBlocks extra text }
    requires not_refused { refused (definitions table.now) ≡ false }
    ensures staged_within { (ds : List Definition) → definitions table.now ≡ some ds → StagedWithin work.old work.new text result extra (sized_definitions extra (in_order ds)) }
    ensures untouched { (ds : List Definition) → definitions table.now ≡ some ds → Untouched work.old work.new text result (map defined_match ds) }
{
    let mut done = text;
    let mut cursor = None;
    while let Some(found) = table_order::next(table, cursor) {
        done = apply_definition(work, done, extra, table, found);
        cursor = Some(found);
    }
    done
}

// The stages of the definitions of a table that number 3 lets pass, and number 6. Lengths count the held blocks in full.
pub fn apply_definitions_outside_text(work: &mut [u8], text: Progress, table: &[u8]) -> Progress
    requires ready { Ready work.old text }
    requires unmarked_progress { UnmarkedProgress work.old text }
    requires not_refused { refused (definitions table.now) ≡ false }
    ensures answered { (ds : List Definition) → definitions table.now ≡ some ds → Answered work.old work.new text result (apply_definitions_outside_text ds) }
    ensures untouched { (ds : List Definition) → definitions table.now ≡ some ds → Untouched work.old work.new text result (text_opening ∷ map defined_match ds) }
{
    let place = text?;
    let held = held_stages::hold_texts(work, place);
    let outside = Ok(held.text);
    let defined = apply_definitions(work, outside, held.extra, table);
    held_stages::put_all_back(work, defined, held)
}

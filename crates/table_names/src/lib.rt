// The record of a name in the definition table.
#![tactic(auto)]

ghost use Rattle.table_names.specs.Named.{FindsNamed};

use table::{Record, listed_at};

// The first record from the place on that has the name. A table that number 3 lets pass has no other.
pub fn find_named(table: &[u8], from: usize, name: &[u8]) -> Option<Record>
    ensures { FindsNamed table.now from name.now result }
{
    let mut at = from;
    // The step varies: a record says where the next one begins.
    while let Some(found) = listed_at(table, at) {
        if name == found.name_in(table) {
            return Some(found);
        }
        at = found.next;
    }
    None
}

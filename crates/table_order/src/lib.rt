// The order in which definitions are applied: longer names first, names of equal length in ascending byte order. Each next record is
// picked from the table where it lies.
#![tactic(auto)]

ghost use Rattle.std.specs.Prelude.{◌≡◌};
ghost use Rattle.spec.specs.Table.{precedes as precedes_name};
ghost use Rattle.table.specs.Reading.{Lies, Stands, name_at};
ghost use Rattle.table_order.specs.Order.{Reached, is_left, Sooner, Nexts};

use table::{Record, first_place, listed_at};

// Is the first of two records applied before the second?
fn precedes(table: &[u8], a: Record, b: Record) -> bool
    requires { Lies table.now a × Lies table.now b }
    ensures { result ≡ precedes_name (name_at table.now a) (name_at table.now b) }
{
    let first = a.name_in(table);
    let second = b.name_in(table);
    second.len() < first.len() || second.len() == first.len() && first < second
}

// Does a record come behind the one that came last?
fn is_left(table: &[u8], last: Option<Record>, found: Record) -> bool
    requires { Reached table.now last × Lies table.now found }
    ensures { result ≡ is_left table.now last (name_at table.now found) }
{
    let Some(last) = last else {
        return true;
    };
    precedes(table, last, found)
}

// The sooner of two records, of which the first may be missing.
fn sooner(table: &[u8], best: Option<Record>, found: Record) -> Record
    requires { Stands table.now best × Stands table.now (Some found) }
    ensures { Sooner table.now best found result }
{
    let Some(first) = best else {
        return found;
    };
    if precedes(table, first, found) {
        return first;
    }
    found
}

// The next record of the order, behind the one that came last, if one did.
pub fn next(table: &[u8], last: Option<Record>) -> Option<Record>
    requires { Reached table.now last }
    ensures { Nexts table.now last result }
{
    let mut best = None;
    let mut at = first_place(table);
    // The step varies: a record says where the next one begins.
    while let Some(found) = listed_at(table, at) {
        if is_left(table, last, found) {
            best = Some(sooner(table, best, found));
        }
        at = found.next;
    }
    best
}

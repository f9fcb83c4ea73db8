// The definition table's bytes: reading a record of either form.
#![tactic(auto)]

ghost use Rattle.std.specs.Prelude.{◌≡◌, cond, ◌≤◌, ◌<◌, length};
ghost use Rattle.spec.specs.Table.{narrow, wide, form_of};
ghost use Rattle.table.specs.Listed.{Listed};
ghost use Rattle.table.specs.Reading.{first_place, most_name, most_latex, Fits, Lies, ReadsIn, Reads, definition_at};

// A record's places in the table: the name lies from `name` to `latex`, the LaTeX from there to `next`, where the next record begins.
#[derive(Clone, Copy)]
pub struct Record {
    pub name: usize,
    pub latex: usize,
    pub next: usize,
}

impl Record {
    // The bytes of its name.
    pub fn name_in(self, table: &[u8]) -> &[u8]
        requires { Lies table.now self }
        ensures { result.now ≡ (definition_at table.now self).name }
    {
        let start = self.name;
        let end = self.latex;
        &table[start..end]
    }

    // The bytes of its LaTeX.
    pub fn latex_in(self, table: &[u8]) -> &[u8]
        requires { Lies table.now self }
        ensures { result.now ≡ (definition_at table.now self).latex }
    {
        let start = self.latex;
        let end = self.next;
        &table[start..end]
    }
}

// What a header says of its record.
#[derive(Clone, Copy)]
struct Lengths {
    name: usize,
    latex: usize,
}

// Why no record is read at a place before the table's end: its header says nothing, or it goes past the end.
#[derive(Clone, Copy)]
pub struct Unreadable;

// Whether the table is in the wide form, which its first byte tells.
fn is_wide(table: &[u8]) -> bool
    ensures { form_of table.now ≡ cond result wide narrow }
{
    table.first() == Some(&0)
}

// Where the first record begins: behind the byte of the wide form.
pub fn first_place(table: &[u8]) -> usize
    ensures { result ≡ first_place table.now }
{
    if is_wide(table) {
        return 1;
    }
    0
}

// The record at a place, or nothing at the table's end.
pub fn record_at(table: &[u8], at: usize) -> Result<Option<Record>, Unreadable>
    ensures { Reads table.now at result }
{
    if table.len() <= at {
        return Ok(None);
    }
    if is_wide(table) {
        return wide_record_at(table, at);
    }
    narrow_record_at(table, at)
}

// The record that a walk over the table meets at a place: none where the table ends or can't be read.
pub fn listed_at(table: &[u8], at: usize) -> Option<Record>
    ensures { Listed table.now at result }
{
    record_at(table, at).unwrap_or(None)
}

// The two forms have a function each: one for both would be handed the width, the bound and where the lengths part, and be no plainer.
//
// The record at a place in the narrow form: a header is 16 bits, most significant first, 6 of the name's length and 10 of the LaTeX's.
fn narrow_record_at(table: &[u8], at: usize) -> Result<Option<Record>, Unreadable>
    requires { at < length table.now }
    ensures { ReadsIn narrow table.now at result }
{
    if table.len() - at < 2 {
        return Err(Unreadable);
    }
    let header = usize::from(u16::from_be_bytes([table[at], table[at + 1]]));
    let lengths = Lengths {
        name: header / 1024,
        latex: header % 1024,
    };
    record_behind(table, at + 2, lengths)
}

// The record at a place in the wide form: a header is 24 bits, most significant first, 4 that are zero, 7 of the name's length and 13 of the LaTeX's.
fn wide_record_at(table: &[u8], at: usize) -> Result<Option<Record>, Unreadable>
    requires { at < length table.now }
    ensures { ReadsIn wide table.now at result }
{
    if table.len() - at < 3 {
        return Err(Unreadable);
    }
    let header = u32::from_be_bytes([0, table[at], table[at + 1], table[at + 2]]) as usize;
    if 1_048_576 <= header {
        return Err(Unreadable);
    }
    let lengths = Lengths {
        name: header / 8192,
        latex: header % 8192,
    };
    record_behind(table, at + 3, lengths)
}

// The record whose name begins at a place, behind its header.
fn record_behind(table: &[u8], name: usize, lengths: Lengths) -> Result<Option<Record>, Unreadable>
    requires name_in_bounds { name ≤ length table.now }
    requires name_le_most_name { (lengths.name ≤ most_name) × (lengths.latex ≤ most_latex) }
    ensures { Fits table.now name lengths.name lengths.latex result }
{
    if table.len() - name < lengths.name + lengths.latex {
        return Err(Unreadable);
    }
    let latex = name + lengths.name;
    Ok(Some(Record {
        name,
        latex,
        next: latex + lengths.latex,
    }))
}

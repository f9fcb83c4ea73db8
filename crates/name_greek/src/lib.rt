// Tables of names: what a row is, and the table of the Greek names, which the plain check reads too.
#![tactic(auto)]

ghost use Rattle.std.specs.Prelude.{◌≡◌, take};
ghost use Rattle.std.specs.List.{list_any};
ghost use Rattle.spec.specs.Symbols.{same};
ghost use Rattle.spec.specs.Finish.{one_of};
ghost use Rattle.spec.specs.Rows.{greek_letters};
ghost use Rattle.spec.specs.Grammar.{greek_names};
ghost use Rattle.name_greek.specs.Rows.{row_of, rows_of};

// A row: a byte for the length of a name as it is typed and 15 bytes for that, a byte for the length of its LaTeX and 19 bytes for that. Zeros
// stand behind each.
pub type Row = [u8; 36];

// The name as it is typed.
pub fn typst(row: &Row) -> &[u8]
    ensures { result.now ≡ (row_of row.now).typst }
{
    front(&row[1..16], row[0])
}

// Its LaTeX.
pub fn latex(row: &Row) -> &[u8]
    ensures { result.now ≡ (row_of row.now).latex }
{
    front(&row[17..], row[16])
}

// The first `n` bytes, or all if there are fewer.
fn front(s: &[u8], n: u8) -> &[u8]
    ensures { result.now ≡ take n s.now }
{
    &s[..usize::from(n).min(s.len())]
}

// The thirty Greek names, in the Rust's order.
const GREEK: [Row; 30] = [
    *b"\x07epsilon\0\0\0\0\0\0\0\0\x08\\epsilon\0\0\0\0\0\0\0\0\0\0\0",
    *b"\x06Lambda\0\0\0\0\0\0\0\0\0\x07\\Lambda\0\0\0\0\0\0\0\0\0\0\0\0",
    *b"\x06lambda\0\0\0\0\0\0\0\0\0\x07\\lambda\0\0\0\0\0\0\0\0\0\0\0\0",
    *b"\x05Omega\0\0\0\0\0\0\0\0\0\0\x06\\Omega\0\0\0\0\0\0\0\0\0\0\0\0\0",
    *b"\x05omega\0\0\0\0\0\0\0\0\0\0\x06\\omega\0\0\0\0\0\0\0\0\0\0\0\0\0",
    *b"\x05Sigma\0\0\0\0\0\0\0\0\0\0\x06\\Sigma\0\0\0\0\0\0\0\0\0\0\0\0\0",
    *b"\x05sigma\0\0\0\0\0\0\0\0\0\0\x06\\sigma\0\0\0\0\0\0\0\0\0\0\0\0\0",
    *b"\x05Theta\0\0\0\0\0\0\0\0\0\0\x06\\Theta\0\0\0\0\0\0\0\0\0\0\0\0\0",
    *b"\x05theta\0\0\0\0\0\0\0\0\0\0\x06\\theta\0\0\0\0\0\0\0\0\0\0\0\0\0",
    *b"\x05Gamma\0\0\0\0\0\0\0\0\0\0\x06\\Gamma\0\0\0\0\0\0\0\0\0\0\0\0\0",
    *b"\x05gamma\0\0\0\0\0\0\0\0\0\0\x06\\gamma\0\0\0\0\0\0\0\0\0\0\0\0\0",
    *b"\x05Delta\0\0\0\0\0\0\0\0\0\0\x06\\Delta\0\0\0\0\0\0\0\0\0\0\0\0\0",
    *b"\x05delta\0\0\0\0\0\0\0\0\0\0\x06\\delta\0\0\0\0\0\0\0\0\0\0\0\0\0",
    *b"\x05kappa\0\0\0\0\0\0\0\0\0\0\x06\\kappa\0\0\0\0\0\0\0\0\0\0\0\0\0",
    *b"\x05alpha\0\0\0\0\0\0\0\0\0\0\x06\\alpha\0\0\0\0\0\0\0\0\0\0\0\0\0",
    *b"\x04beta\0\0\0\0\0\0\0\0\0\0\0\x05\\beta\0\0\0\0\0\0\0\0\0\0\0\0\0\0",
    *b"\x04zeta\0\0\0\0\0\0\0\0\0\0\0\x05\\zeta\0\0\0\0\0\0\0\0\0\0\0\0\0\0",
    *b"\x04iota\0\0\0\0\0\0\0\0\0\0\0\x05\\iota\0\0\0\0\0\0\0\0\0\0\0\0\0\0",
    *b"\x03eta\0\0\0\0\0\0\0\0\0\0\0\0\x04\\eta\0\0\0\0\0\0\0\0\0\0\0\0\0\0\0",
    *b"\x03phi\0\0\0\0\0\0\0\0\0\0\0\0\x04\\phi\0\0\0\0\0\0\0\0\0\0\0\0\0\0\0",
    *b"\x03chi\0\0\0\0\0\0\0\0\0\0\0\0\x04\\chi\0\0\0\0\0\0\0\0\0\0\0\0\0\0\0",
    *b"\x03psi\0\0\0\0\0\0\0\0\0\0\0\0\x04\\psi\0\0\0\0\0\0\0\0\0\0\0\0\0\0\0",
    *b"\x03rho\0\0\0\0\0\0\0\0\0\0\0\0\x04\\rho\0\0\0\0\0\0\0\0\0\0\0\0\0\0\0",
    *b"\x03tau\0\0\0\0\0\0\0\0\0\0\0\0\x04\\tau\0\0\0\0\0\0\0\0\0\0\0\0\0\0\0",
    *b"\x02Xi\0\0\0\0\0\0\0\0\0\0\0\0\0\x03\\Xi\0\0\0\0\0\0\0\0\0\0\0\0\0\0\0\0",
    *b"\x02Pi\0\0\0\0\0\0\0\0\0\0\0\0\0\x03\\Pi\0\0\0\0\0\0\0\0\0\0\0\0\0\0\0\0",
    *b"\x02xi\0\0\0\0\0\0\0\0\0\0\0\0\0\x03\\xi\0\0\0\0\0\0\0\0\0\0\0\0\0\0\0\0",
    *b"\x02pi\0\0\0\0\0\0\0\0\0\0\0\0\0\x03\\pi\0\0\0\0\0\0\0\0\0\0\0\0\0\0\0\0",
    *b"\x02nu\0\0\0\0\0\0\0\0\0\0\0\0\0\x03\\nu\0\0\0\0\0\0\0\0\0\0\0\0\0\0\0\0",
    *b"\x02mu\0\0\0\0\0\0\0\0\0\0\0\0\0\x03\\mu\0\0\0\0\0\0\0\0\0\0\0\0\0\0\0\0",
];

// The rows of the Greek names, which are the definitions', LaTeX included.
pub fn greek() -> &'static [Row]
    ensures { rows_of result.now ≡ greek_letters }
{
    &GREEK
}

// Whether the text is a name of the table.
fn is_name(s: &[u8], table: &[Row]) -> bool
    ensures { result ≡ list_any (λ r. same (row_of r).typst s.now) table.now }
{
    table.iter().any(|row| text_search::is_same(typst(row), s))
}

// Whether the text is one of the thirty names.
pub fn is_greek(s: &[u8]) -> bool
    ensures { result ≡ one_of greek_names s.now }
{
    is_name(s, greek())
}

// What comes next in a text: a sign, one more factor, an atom.
ghost use Rattle.std.specs.Prelude.{◌≡◌, drop};
ghost use Rattle.plain_check.specs.Tokens.{sign_next, factor_next, is_atom, Atom};

use text_symbols::Class;

// What is left after n bytes.
pub fn rest(s: &[u8], n: usize) -> &[u8]
    ensures { result.now ≡ drop n s.now }
{
    s.get(n..).unwrap_or(&[])
}

// Does ` + ` or ` - ` come next?
pub fn sign_next(s: &[u8]) -> bool
    ensures { result ≡ sign_next s.now }
{
    let sign = text_search::symbol(s, 1);
    (text_search::symbol(s, 0) == b' ')
        & ((sign == b'+') | (sign == b'-'))
        & (text_search::symbol(s, 2) == b' ')
}

// Does a space come next that stands before no sign?
pub fn factor_next(s: &[u8]) -> bool
    ensures { result ≡ factor_next s.now }
{
    let sign = text_search::symbol(s, 1);
    (text_search::symbol(s, 0) == b' ') & (sign != b'+') & (sign != b'-')
}

// One letter, one of the thirty Greek names, or 1 to 9 digits.
fn is_atom(s: &[u8]) -> bool
    ensures { result ≡ is_atom s.now }
{
    let n = s.len();
    let number = text_symbols::all_in(s, Class::Digit) & ((0 < n) & (n < 10));
    let variable = text_symbols::is_letter(text_search::symbol(s, 0)) & (n == 1);
    number | (variable | name_greek::is_greek(s))
}

// The length of the atom that comes next. A plain text has no letter or digit right behind an atom, so an atom is all of a run.
pub fn atom(s: &[u8]) -> Option<usize>
    ensures { Atom s.now result }
{
    let n = text_symbols::run_end(s, 0, Class::Alnum);
    if is_atom(&s[..n]) { Some(n) } else { None }
}

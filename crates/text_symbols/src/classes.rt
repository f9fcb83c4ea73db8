// Classes of symbols. Each is one expression with no branch; `is_in` chooses among them.
ghost use Rattle.std.specs.Prelude.{◌≡◌};
ghost use Rattle.spec.specs.Symbols.{between, blank, letter, digit, alnum, wordly, foreign, script_sign};
ghost use Rattle.text_symbols.specs.Runs.{member};

use super::Class;

fn is_between(low: u8, high: u8, b: u8) -> bool
    ensures { result ≡ between low high b }
{
    (low <= b) & (b <= high)
}

// Whitespace: space, tab, newline.
pub fn is_blank(b: u8) -> bool
    ensures { result ≡ blank b }
{
    (b == b' ') | ((b == b'\t') | (b == b'\n'))
}

pub fn is_letter(b: u8) -> bool
    ensures { result ≡ letter b }
{
    is_between(b'a', b'z', b) | is_between(b'A', b'Z', b)
}

pub fn is_digit(b: u8) -> bool
    ensures { result ≡ digit b }
{
    is_between(b'0', b'9', b)
}

pub fn is_alnum(b: u8) -> bool
    ensures { result ≡ alnum b }
{
    is_letter(b) | is_digit(b)
}

// A word character: a letter, a digit or `_`.
pub fn is_word(b: u8) -> bool
    ensures { result ≡ wordly b }
{
    is_alnum(b) | (b == b'_')
}

// `_` or `^`.
pub fn is_script_sign(b: u8) -> bool
    ensures { result ≡ script_sign b }
{
    (b == b'_') | (b == b'^')
}

// Number 1: a byte that no formula has.
fn is_foreign(b: u8) -> bool
    ensures { result ≡ foreign b }
{
    !(is_between(b' ', b'~', b) | ((b == b'\t') | (b == b'\n')))
}

// The test of a class.
pub fn is_in(class: Class, b: u8) -> bool
    ensures { result ≡ member class b }
{
    match class {
        Class::Blank => is_blank(b),
        Class::Letter => is_letter(b),
        Class::Digit => is_digit(b),
        Class::Alnum => is_alnum(b),
        Class::Formula => !is_foreign(b),
        Class::Latex => !(is_foreign(b) | (b == b'$')),
        Class::Only(x) => b == x,
        Class::Except(x) => b != x,
    }
}

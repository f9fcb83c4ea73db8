// The input of the program `formula`: its first line, and the formula behind it.
#![tactic(auto)]

ghost use Rattle.std.specs.Prelude.{◌≡◌};
ghost use Rattle.spec.specs.Program.{display_of, first_line, formula_of};
ghost use Rattle.formula_input.specs.Input.{asked};

// The display, on or off, that the first line asks for: `d` or `i` and a newline, or the end. None where it is anything else.
pub fn first_line(input: &[u8]) -> Option<bool>
    ensures { asked result ≡ first_line input.now }
{
    match input {
        [b] | [b, b'\n', ..] => display(*b),
        _ => None,
    }
}

fn display(b: u8) -> Option<bool>
    ensures { asked result ≡ display_of b }
{
    match b {
        b'd' => Some(true),
        b'i' => Some(false),
        _ => None,
    }
}

// What stands behind a first line of one byte and its newline.
pub fn formula(input: &[u8]) -> &[u8]
    ensures { result.now ≡ formula_of input.now }
{
    match input {
        [_, _, rest @ ..] => rest,
        _ => &[],
    }
}

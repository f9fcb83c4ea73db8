// Classes of symbols that operands are made of. Each is one expression with no branch, and a common function that is given the further symbols
// would be no plainer.
ghost use Rattle.std.specs.Prelude.{◌≡◌, ◌||◌};
ghost use Rattle.spec.specs.Symbols.{is, alnum};
ghost use Rattle.spec.specs.Fractions.{operand_symbol, in_operand, name_symbol};

// What an operand without brackets is made of.
pub fn is_operand_symbol(b: u8) -> bool
    ensures { result ≡ operand_symbol b }
{
    text_symbols::is_alnum(b) | ((b == b'_') | (b == b'\\'))
}

// A symbol of an operand, or a decimal point between two digits.
pub fn is_in_operand(x: u8, y: u8, z: u8) -> bool
    ensures { result ≡ in_operand x y z }
{
    is_operand_symbol(y) | ((y == b'.') & (text_symbols::is_digit(x) & text_symbols::is_digit(z)))
}

// A symbol of the name before a bracket.
pub fn is_name_symbol(b: u8) -> bool
    ensures { result ≡ name_symbol b }
{
    is_operand_symbol(b) | ((b == b'^') | (b == b'}'))
}

// A symbol that is an exponent by itself.
pub fn is_exponent_symbol(b: u8) -> bool
    ensures { result ≡ alnum b || is "-" b }
{
    text_symbols::is_alnum(b) | (b == b'-')
}

// All texts over the eleven symbols, by number.
ghost use Rattle.std.specs.Prelude.{◌<◌, length};
ghost use Rattle.plain_short.specs.Spelling.{text_count, NumberSpelled};

const SYMBOLS: [u8; 11] = *b"ab1+-()/_^ ";

// Text 0 is empty, and text 11 k + c + 1 is text k with symbol c behind it. It comes to stand at the end of the buffer; the answer is its start.
pub fn spell(number: usize, text: &mut [u8]) -> usize
    requires { number < text_count (length text.old) }
    ensures { NumberSpelled number result text.old text.new }
{
    let mut left = number;
    let mut start = text.len();
    // How many symbols there are shows only as they are spelled, from the last on.
    while 0 < left {
        start -= 1;
        text[start] = SYMBOLS[(left - 1) % 11];
        left = (left - 1) / 11;
    }
    start
}

// The call rewritings with one argument, `op` to the second `upright`, in the Rust's order. Each is a stage: it takes the text where it
// stands in the work buffer and gives it back rewritten, in the other region, or as it was where it has nothing to rewrite.
#![tactic(auto)]

ghost use Rattle.spec.specs.Result.{stage};
ghost use Rattle.spec.specs.Calls.{convert_op, convert_bb, convert_bold, convert_upright, convert_floor, convert_ceil, convert_abs, convert_cal, convert_frak, convert_upright_again, convert_floor_ceil_abs};
ghost use Rattle.text.specs.Stage.{Ready, Staged};

use call_rewriting::{Delimiters, convert_delimiter_func};
use text::Progress;

// What each call becomes.
const OP: Delimiters<'static> = Delimiters {
    name: b"op(",
    left: b"\\operatorname{",
    right: b"}",
    trims: true,
};

const BB: Delimiters<'static> = Delimiters {
    name: b"bb(",
    left: b"\\mathbb{",
    right: b"}",
    trims: false,
};

const BOLD: Delimiters<'static> = Delimiters {
    name: b"bold(",
    left: b"\\mathbf{",
    right: b"}",
    trims: false,
};

const UPRIGHT: Delimiters<'static> = Delimiters {
    name: b"upright(",
    left: b"\\mathrm{",
    right: b"}",
    trims: true,
};

const FLOOR: Delimiters<'static> = Delimiters {
    name: b"floor(",
    left: b"\\left\\lfloor ",
    right: b" \\right\\rfloor",
    trims: false,
};

const CEIL: Delimiters<'static> = Delimiters {
    name: b"ceil(",
    left: b"\\left\\lceil ",
    right: b" \\right\\rceil",
    trims: false,
};

const ABS: Delimiters<'static> = Delimiters {
    name: b"abs(",
    left: b"\\left\\lvert ",
    right: b" \\right\\rvert",
    trims: false,
};

const CAL: Delimiters<'static> = Delimiters {
    name: b"cal(",
    left: b"\\mathcal{",
    right: b"}",
    trims: false,
};

const FRAK: Delimiters<'static> = Delimiters {
    name: b"frak(",
    left: b"\\mathfrak{",
    right: b"}",
    trims: false,
};

// The second `upright` neither trims nor strips quotes.
const UPRIGHT_AGAIN: Delimiters<'static> = Delimiters {
    trims: false,
    ..UPRIGHT
};

// Each of the stages below is a function of the Rust's own, by name, or a part of its `convert_floor_ceil_abs`.

// `op("name")` becomes `\operatorname{name}`.
pub fn convert_op(work: &mut [u8], text: Progress) -> Progress
    requires { Ready work.old text }
    ensures { Staged work.old work.new text result (stage convert_op) }
{
    convert_delimiter_func(work, text, &OP)
}

// `bb(x)` becomes `\mathbb{x}`.
pub fn convert_bb(work: &mut [u8], text: Progress) -> Progress
    requires { Ready work.old text }
    ensures { Staged work.old work.new text result (stage convert_bb) }
{
    convert_delimiter_func(work, text, &BB)
}

// `bold(x)` becomes `\mathbf{x}`.
pub fn convert_bold(work: &mut [u8], text: Progress) -> Progress
    requires { Ready work.old text }
    ensures { Staged work.old work.new text result (stage convert_bold) }
{
    convert_delimiter_func(work, text, &BOLD)
}

// `upright("mean")` becomes `\mathrm{mean}`.
pub fn convert_upright(work: &mut [u8], text: Progress) -> Progress
    requires { Ready work.old text }
    ensures { Staged work.old work.new text result (stage convert_upright) }
{
    convert_delimiter_func(work, text, &UPRIGHT)
}

fn convert_floor(work: &mut [u8], text: Progress) -> Progress
    requires { Ready work.old text }
    ensures { Staged work.old work.new text result (stage convert_floor) }
{
    convert_delimiter_func(work, text, &FLOOR)
}

fn convert_ceil(work: &mut [u8], text: Progress) -> Progress
    requires { Ready work.old text }
    ensures { Staged work.old work.new text result (stage convert_ceil) }
{
    convert_delimiter_func(work, text, &CEIL)
}

fn convert_abs(work: &mut [u8], text: Progress) -> Progress
    requires { Ready work.old text }
    ensures { Staged work.old work.new text result (stage convert_abs) }
{
    convert_delimiter_func(work, text, &ABS)
}

fn convert_cal(work: &mut [u8], text: Progress) -> Progress
    requires { Ready work.old text }
    ensures { Staged work.old work.new text result (stage convert_cal) }
{
    convert_delimiter_func(work, text, &CAL)
}

fn convert_frak(work: &mut [u8], text: Progress) -> Progress
    requires { Ready work.old text }
    ensures { Staged work.old work.new text result (stage convert_frak) }
{
    convert_delimiter_func(work, text, &FRAK)
}

fn convert_upright_again(work: &mut [u8], text: Progress) -> Progress
    requires { Ready work.old text }
    ensures { Staged work.old work.new text result (stage convert_upright_again) }
{
    convert_delimiter_func(work, text, &UPRIGHT_AGAIN)
}

// `floor(x)`, `ceil(x)` and `abs(x)` become delimiters that take the height of what they enclose; then come the alphabets.
pub fn convert_floor_ceil_abs(work: &mut [u8], text: Progress) -> Progress
    requires { Ready work.old text }
    ensures { Staged work.old work.new text result convert_floor_ceil_abs }
{
    let text = convert_floor(work, text);
    let text = convert_ceil(work, text);
    let text = convert_abs(work, text);
    let text = convert_cal(work, text);
    let text = convert_frak(work, text);
    convert_upright_again(work, text)
}

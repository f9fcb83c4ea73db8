// One round of fractions over the lent buffer.
#![tactic(auto)]

mod regular;
mod slashes;
mod writing;

ghost use Rattle.std.specs.Prelude.{◌≡◌};
ghost use Rattle.text.specs.declared.Refusal.TheVariants.{BarredSolidus};

pub use regular::convert_regular_fractions;
use text::Refusal;
use text_symbols::Span;

// The numerator and the denominator of a slash.
#[derive(Clone, Copy)]
pub struct Operands {
    pub num: Span,
    pub den: Span,
}

// Number 9, for which a round ends early. In the round after the last that may change the text it is no number 9.
#[derive(Clone, Copy)]
pub struct Barred;

impl From<Barred> for Refusal {
    ghost from_gives = { λ _ why. why ≡ BarredSolidus };

    fn from(_barred: Barred) -> Refusal {
        Refusal::BarredSolidus
    }
}

// The operands of a fraction: what the searches before a slash and after it share, and an operand without its parentheses.
//
// A search stands at a place. To the right it looks at s[i], s[i + 1], .., to the left at s[i - 1], s[i - 2], ..; it answers the
// place that it comes to.
#![tactic(auto)]

mod classes;
mod groups;
mod strip;

pub use classes::{is_exponent_symbol, is_in_operand, is_name_symbol};
pub use groups::{before_group, closed_after, closed_before, past_group};
pub use strip::{operand_span, strip_outer_parens};

// Blocks held out of a text, and put back: the two ends of the stages that spare block text.
#![tactic(auto)]

ghost use Rattle.std.specs.Prelude.{◌≡◌, ◌-◌, ◌≤◌, length, [], ◌∷◌};
ghost use Rattle.spec.specs.Result.{most_symbols};
ghost use Rattle.spec.specs.Matches.{text_opening, roman_opening};
ghost use Rattle.spec.specs.Held.{Held, with_text, hold_texts, hold_both, put_back};
ghost use Rattle.text_symbols.specs.Parts.{part};
ghost use Rattle.text.specs.Stage.{Answered};
ghost use Rattle.text.specs.Untouched.{Untouched};
ghost use Rattle.held_blocks.specs.HoldOut.{Hold};
ghost use Rattle.held_stages.specs.Outside.{Passed, Holdable, HeldFrom};
ghost use Rattle.held_stages.specs.Carried.{Carries, Carried};

use held_blocks::{Blocks, Marked};
use text::{Progress, TextPlace};

// A text with marks, how many of its blocks are `\text` blocks, how many bytes all of them fill, and how many symbols they have beyond
// their marks. A block fills some bytes, so where they fill none there is no block.
#[derive(Clone, Copy)]
pub struct OutsideText {
    pub text: TextPlace,
    pub texts: usize,
    pub used: usize,
    pub extra: usize,
}

// Holds the blocks of a name out, to the other region and behind the blocks that are held. Nothing is done where the name is nowhere.
fn hold(work: &mut [u8], text: TextPlace, name: &[u8], mark: u8, blocks: Blocks) -> Option<Marked>
    requires hold { Hold work.old text.at text.n (most_symbols - text.at) blocks.used blocks.filed }
    requires low { text.at ≤ most_symbols }
    requires name_len_bound { length name.now ≤ 64 }
    ensures { Passed work.old work.new text name.now mark blocks result }
{
    let TextPlace { at: from, n } = text;
    let end = from + n;
    if !text_search::contains(&work[from..end], name) {
        return None;
    }
    let to = text::CAP - from;
    Some(held_blocks::hold_out(work, text, to, name, mark, blocks))
}

// Holds `\text{..}` blocks out. Where there is none, the text stays where it is.
pub fn hold_texts(work: &mut [u8], text: TextPlace) -> OutsideText
    requires { Holdable work.old text.at text.n }
    ensures held_from { HeldFrom work.old work.new result (hold_texts (part text.at text.n work.old)) }
    ensures untouched { Untouched work.old work.new (Ok text) (Ok result.text) (text_opening ∷ []) }
{
    let none = Blocks { used: 0, filed: 0 };
    let Some(m) = hold(work, text, b"\\text{", held_blocks::TEXT_MARK, none) else {
        return OutsideText {
            text,
            texts: 0,
            used: 0,
            extra: 0,
        };
    };
    OutsideText {
        text: TextPlace {
            at: text::CAP - text.at,
            n: m.len,
        },
        texts: m.blocks.filed / 4,
        used: m.blocks.used,
        extra: m.blocks.used - m.blocks.filed / 4,
    }
}

// Holds `\text{..}` blocks out, and then `\mathrm{..}` blocks. Where there is none, the text stays where it is.
pub fn hold_both(work: &mut [u8], text: TextPlace) -> OutsideText
    requires { Holdable work.old text.at text.n }
    ensures held_from { HeldFrom work.old work.new result (hold_both (part text.at text.n work.old)) }
    ensures untouched { Untouched work.old work.new (Ok text) (Ok result.text) (text_opening ∷ (roman_opening ∷ [])) }
{
    let first = hold_texts(work, text);
    let held = Blocks {
        used: first.used,
        filed: 4 * first.texts,
    };
    let Some(m) = hold(
        work,
        first.text,
        b"\\mathrm{",
        held_blocks::ROMAN_MARK,
        held,
    ) else {
        return first;
    };
    OutsideText {
        text: TextPlace {
            at: text::CAP - first.text.at,
            n: m.len,
        },
        texts: first.texts,
        used: m.blocks.used,
        extra: m.blocks.used - m.blocks.filed / 4,
    }
}

// Puts every block back to its own mark. Where none is held, the text stays where it is. The two calls differ in all that they are given,
// so a loop over them is no plainer.
pub fn put_all_back(work: &mut [u8], text: Progress, held: OutsideText) -> Progress
    requires { Carried work.old text held.texts held.used }
    ensures answered { (h : Held) → Carries work.old text held.texts held.used h → Answered work.old work.new text result (λ t. put_back (with_text h t)) }
    ensures work_unchanged { held.used ≡ 0 → (work.new ≡ work.old) × (result ≡ text) }
{
    let place = text?;
    if held.used == 0 {
        return text;
    }
    let at = place.at;
    let to = text::CAP - at;
    let half = held_blocks::put_back(work, place, to, held_blocks::ROMAN_MARK, held.texts);
    let halfway = TextPlace { at: to, n: half };
    let n = held_blocks::put_back(work, halfway, at, held_blocks::TEXT_MARK, 0);
    Ok(TextPlace { at, n })
}

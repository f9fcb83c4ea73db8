// Putting blocks back.
ghost use Rattle.std.specs.Prelude.{◌≡◌, ◌+◌, ◌<◌, ◌≤◌, length};
ghost use Rattle.spec.specs.Pipeline.{least_work};
ghost use Rattle.spec.specs.Held.{filled};
ghost use Rattle.text_symbols.specs.Parts.{part};
ghost use Rattle.text.specs.Writer.{Room, Appended};
ghost use Rattle.held_laws.specs.Marks.{count};
ghost use Rattle.held_blocks.specs.Filing.{blocks_at, blocks_room, text_from};
ghost use Rattle.held_blocks.specs.Back.{number_at, Filed, Back, stored_at, stored_from};

use text::{TextPlace, Writer};

// The number that stands at a place as two bytes.
fn number_at(work: &[u8], at: usize) -> usize
    requires { at + 1 < length work.now }
    ensures { result ≡ number_at work.now at }
{
    usize::from(u16::from_be_bytes([work[at], work[at + 1]]))
}

// Appends block k, which is found by its place.
fn put_block(work: &mut [u8], out: Writer, k: usize) -> Writer
    requires room { Room work.old out blocks_room }
    requires filed { Filed work.old k }
    requires least_work_in_bounds { (least_work ≤ length work.old) × (out.to + out.cap ≤ blocks_at) }
    ensures { Appended work.old work.new out result (stored_at work.old k) }
{
    let at = super::PLACES_AT + 4 * k;
    let start = number_at(work, at);
    let long = number_at(work, at + 2);
    out.copy(work, super::BLOCKS_AT + start, long)
}

// Writes the text at `source` to `to`, with block `first` for the first mark, the next block for the next, and so on. Its length is what comes of it.
pub fn put_back(work: &mut [u8], source: TextPlace, to: usize, mark: u8, first: usize) -> usize
    requires { Back work.old source.at source.n to mark first }
    ensures { Appended work.old work.new (text_from to 0) (text_from to result) (filled mark (stored_from work.old first (count mark (part source.at source.n work.old))) (part source.at source.n work.old)) }
{
    let TextPlace { at: from, n } = source;
    let mut out = Writer::new(to);
    let mut k = first;
    for i in 0..n {
        let b = work[from + i];
        if b == mark {
            out = put_block(work, out, k);
            k += 1;
        } else {
            out = out.put(work, b);
        }
    }
    out.count
}

// Holding blocks out.
ghost use Rattle.std.specs.Prelude.{◌+◌, ◌<◌, ◌≤◌, length};
ghost use Rattle.text_symbols.specs.Parts.{part};
ghost use Rattle.text.specs.Writer.{Room, Appended};
ghost use Rattle.held_blocks.specs.Filing.{blocks_at, blocks_from, places_from, pair, place, BlockFiled, HeldOut};
ghost use Rattle.held_blocks.specs.HoldOut.{Hold, taken_from};

use super::{Blocks, Marked};
use text::{TextPlace, Writer};

// Appends a number below 65,536 to the places, as two bytes.
fn put_pair(work: &mut [u8], places: Writer, n: usize) -> Writer
    requires room { Room work.old places 2 }
    requires n_bound { n < 65536 }
    ensures { Appended work.old work.new places result (pair n) }
{
    places.put_all(work, &(n as u16).to_be_bytes())
}

// Appends the place of a block: its start among the blocks, and its length.
fn put_place(work: &mut [u8], places: Writer, start: usize, long: usize) -> Writer
    requires room { Room work.old places 4 }
    requires start_bound { (start < 65536) × (long < 65536) }
    ensures { Appended work.old work.new places result (place start long) }
{
    let half = put_pair(work, places, start);
    put_pair(work, half, long)
}

// Copies the block at `at` behind the others, and files its place.
fn keep(work: &mut [u8], at: usize, long: usize, blocks: Blocks) -> Blocks
    requires room { Room work.old (blocks_from blocks.used) long }
    requires place_room { Room work.old (places_from blocks.filed) 4 }
    requires long_bound { (at + long ≤ blocks_at) × ((blocks.used < 65536) × (long < 65536)) }
    ensures { BlockFiled work.old work.new at long blocks.used result.used blocks.filed result.filed }
{
    let filled = blocks.writer().copy(work, at, long);
    let listed = put_place(work, blocks.places_writer(), blocks.used, long);
    Blocks {
        used: filled.count,
        filed: listed.count,
    }
}

// Writes the text at `source` to `to`, with a mark for each block of the name: a block that doesn't close is left as it
// is, with all that stands behind it. The blocks come behind those that are held already, and so do their places.
pub fn hold_out(
    work: &mut [u8],
    source: TextPlace,
    to: usize,
    name: &[u8],
    mark: u8,
    blocks: Blocks,
) -> Marked
    requires hold { Hold work.old source.at source.n to blocks.used blocks.filed }
    requires name_len_bound { length name.now ≤ 64 }
    ensures { HeldOut work.old work.new to blocks.used blocks.filed result.len result.blocks.used result.blocks.filed (taken_from name.now mark (part source.at source.n work.old)).left (taken_from name.now mark (part source.at source.n work.old)).blocks }
{
    let TextPlace { at: from, n } = source;
    let end = from + n;
    let mut out = Writer::new(to);
    let mut held = blocks;
    let mut i = 0;
    // The step varies: behind a block the loop goes on, and a block that doesn't close ends it.
    while i < n {
        let at = from + i;
        if !text_search::starts_with(&work[at..end], name) {
            out = out.copy(work, at, 1);
            i += 1;
            continue;
        }
        let open = i + name.len();
        let inside = from + open;
        let Some(k) = text_closing::find_matching_brace(&work[inside..end]) else {
            out = out.copy(work, at, n - i);
            break;
        };
        out = out.put(work, mark);
        held = keep(work, at, name.len() + k + 1, held);
        i = open + k + 1;
    }
    Marked {
        len: out.count,
        blocks: held,
    }
}

// Every text of up to 5 bytes over eleven symbols goes to the plain check, and each plain one to the entry. The program writes the plain ones, each
// with its atoms and its LaTeX, and counts how many different LaTeX texts there are. `oracle/run short` makes the same list from the grammar.
#![tactic(auto)]

mod printed;
mod spelling;

ghost use Rattle.std.specs.Prelude.{◌≡◌, ◌<◌, length, IfOk, OnErr};
ghost use Rattle.plain_short.specs.Printed.{PrintedRoom};

use printed::print;
use spelling::spell;
use std::io;

// The number of texts of up to 5 symbols.
const TEXTS: usize = 177_156;

// How many texts were plain, how many different LaTeX texts they printed, and the bytes in use for these.
#[derive(Clone, Copy)]
struct Tally {
    plain: u64,
    different: u64,
    used: usize,
}

fn main(rt: HostRuntime) -> io::Result<()> {
    let mut printed = [0; printed::ROOM];
    summarize(&rt, try_all(&rt, &mut printed)?)
}

fn summarize(rt: &impl Print, tally: Tally) -> io::Result<()> {
    let plain = tally.plain;
    let different = tally.different;
    println!(rt; "{TEXTS} texts, {plain} plain, {different} different LaTeX texts")
}

// Tries the texts one after another.
fn try_all(rt: &impl Print, printed: &mut [u8]) -> io::Result<Tally>
    requires { length printed.old ≡ 65536 }
{
    let mut tally = Tally {
        plain: 0,
        different: 0,
        used: 0,
    };
    for number in 0..TEXTS {
        tally = try_text(rt, number, printed, tally)?;
    }
    Ok(tally)
}

// Checks text `number`. If it is plain, writes its line and keeps what it prints.
fn try_text(rt: &impl Print, number: usize, printed: &mut [u8], tally: Tally) -> io::Result<Tally>
    requires number_bound { number < 177156 }
    requires printed_room { PrintedRoom printed.old tally.used }
    ensures ok { IfOk result (λ t. PrintedRoom printed.new t.used) }
    ensures err { OnErr result (printed.new ≡ printed.old) }
{
    let mut text = [0; 5];
    let start = spell(number, &mut text);
    let formula = &text[start..];
    let Some(atoms) = plain_check::plain_check(formula) else {
        return Ok(tally);
    };
    rt.write_all(formula)?;
    print!(rt; "\t{atoms}\t")?;
    let used = print(rt, formula, printed, tally.used)?;
    Ok(Tally {
        plain: tally.plain.wrapping_add(1),
        different: tally.different.wrapping_add(u64::from(tally.used < used)),
        used,
    })
}

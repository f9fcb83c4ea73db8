// Fractions: rounds until nothing changes, with numbers 5, 7 and 9. The text changes sides with each round.
#![tactic(auto)]

ghost use Rattle.std.specs.Prelude.{Ok};
ghost use Rattle.spec.specs.Fractions.{convert_fractions, settle as settled};
ghost use Rattle.text.specs.Stage.{Ready, Staged};
ghost use Rattle.fractions.specs.Settle.{Stepped};

use fraction_left::Marks;
use fraction_round::{Barred, convert_regular_fractions};
use text::{CAP, Due, Progress, Refusal, TextPlace, Writer};

// So many rounds may change the text.
const ROUNDS: usize = 64;

// A round from one region to the other. It answers the text's new length, where it changes the text.
fn next_round(work: &mut [u8], text: TextPlace, marks: &mut Marks) -> Result<Option<usize>, Barred>
    requires { Ready work.old (Ok text) }
    ensures { Stepped work.old work.new text result }
{
    let TextPlace { at: from, n } = text;
    let to = CAP - from;
    let count = convert_regular_fractions(work, text, to, marks)?;
    if count != n {
        return Ok(Some(count));
    }
    if work[to..to + n] == work[from..from + n] {
        return Ok(None);
    }
    Ok(Some(count))
}

// The round after the last that may change the text: it only says whether it would. Where it would meet number 9 it is number 7 too.
fn last_round(work: &mut [u8], text: TextPlace, marks: &mut Marks) -> Progress
    requires { Ready work.old (Ok text) }
    ensures { Staged work.old work.new (Ok text) result (settled 0) }
{
    match next_round(work, text, marks) {
        Ok(None) => Ok(text),
        Ok(Some(_)) => Err(Refusal::Unsettled),
        Err(Barred) => Err(Refusal::Unsettled),
    }
}

// The rounds. They share the marks, of which each clears as many as its text has symbols.
fn settle(work: &mut [u8], first: TextPlace) -> Progress
    requires { Ready work.old (Ok first) }
    ensures { Staged work.old work.new (Ok first) result convert_fractions }
{
    let mut marks = Marks::new();
    let mut text = first;
    for k in 0..ROUNDS {
        let Some(count) = next_round(work, text, &mut marks)? else {
            return Ok(text);
        };
        let out = Writer {
            count,
            ..Writer::new(CAP - text.at)
        };
        text = out.finished()?;
    }
    last_round(work, text, &mut marks)
}

// The stage. A text with no slash is left as it is.
pub fn convert_fractions(work: &mut [u8], progress: Progress) -> Progress
    requires { Ready work.old progress }
    ensures { Staged work.old work.new progress result convert_fractions }
{
    let Some(Due { source, .. }) = text::due_for(work, progress, b"/") else {
        return progress;
    };
    settle(work, source)
}

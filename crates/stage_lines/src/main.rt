// Runs functions of the Rust, each by itself, on lines of standard input, and writes what becomes of each line. A line that begins
// with `#` is a heading: it begins the next section. Sections 1 to 19 are stages in the Rust's order, 20 to 26 closing and comma
// searches, and the last one is the plain check. What `oracle/run stages` writes for the same lines is the file `stdout`.
#![tactic(auto)]

ghost use Rattle.std.specs.Prelude.{◌≤◌, length};
ghost use Rattle.spec.specs.Result.{most_symbols};
ghost use Rattle.spec.specs.Pipeline.{least_work};
ghost use Rattle.text.specs.Stage.{Ready};

use call_quotes::Quotes;
use std::io;
use text::{Progress, TextPlace, Writer};

// The bytes of all lines that there is room for.
const MOST: usize = 65_536;

fn convert(work: &mut [u8], section: usize, text: Progress) -> Progress
    requires { Ready work.old text }
    ensures { Ready work.new result }
{
    match section {
        1 => call_single::convert_op(work, text),
        2 => cases::convert_cases(work, text),
        3 => attach::convert_attach(work, text),
        4 => call_single::convert_bb(work, text),
        5 => call_single::convert_bold(work, text),
        6 => binom::convert_binom(work, text),
        7 => call_single::convert_upright(work, text),
        8 => call_single::convert_floor_ceil_abs(work, text),
        9 => quotes::convert_text_quotes(work, text),
        _ => convert_syntax(work, section, text),
    }
}

// The stages of the Rust's `convert_syntax` that are functions of their own, and those behind it.
fn convert_syntax(work: &mut [u8], section: usize, text: Progress) -> Progress
    requires { Ready work.old text }
    ensures { Ready work.new result }
{
    match section {
        10 => pattern_rewriting::convert_sqrt(work, text),
        11 => name_words::convert_greek_capitals(work, text),
        12 => scripts::convert_subscripts(work, text),
        13 => scripts::convert_superscripts(work, text),
        14 => fractions::convert_fractions(work, text),
        15 => escapes::escape_set_braces(work, text),
        16 => lr::convert_lr(work, text),
        17 => sizing::size_delimiters_to_content(work, text, text::ALL_TALL),
        18 => alignment::convert_alignment(work, text),
        _ => thin_spaces::drop_thin_space_after_commands(work, text),
    }
}

// The end of the first part.
fn first_part(s: &[u8]) -> Option<usize>
    requires { length s.now ≤ most_symbols }
{
    let part = call_commas::split_top_level_commas(s, 0, Quotes::new());
    Some(part.end)
}

fn search(section: usize, s: &[u8]) -> Option<usize>
    requires { length s.now ≤ most_symbols }
{
    match section {
        20 => text_closing::find_matching_paren(s),
        21 => text_closing::find_matching_brace(s),
        22 => text_closing::matching_delimiter(s, b'(', b')'),
        23 => call_commas::find_comma_in_args(s),
        24 => call_commas::find_unescaped_comma(s),
        25 => first_part(s),
        _ => call_quotes::find_call_end(s),
    }
}

fn show(rt: &impl Print, work: &[u8], progress: Progress) -> io::Result<()>
    requires { Ready work.now progress }
{
    match progress {
        Ok(TextPlace { at, n }) => {
            let end = at + n;
            rt.write_all(&work[at..end])
        }
        Err(why) => {
            let number = u64::from(why);
            print!(rt; "refused {number}")
        }
    }
}

fn show_number(rt: &impl Print, found: Option<usize>, none: &str) -> io::Result<()> {
    match found {
        Some(k) => print!(rt; "{k}"),
        None => print!(rt; "{none}"),
    }
}

fn run(rt: &impl Print, work: &mut [u8], section: usize, formula: &[u8]) -> io::Result<()>
    requires least_work_in_bounds { least_work ≤ length work.old }
    requires formula_len_bound { length formula.now ≤ most_symbols }
{
    let progress = Writer::new(0).put_all(work, formula).finished();
    let converted = convert(work, section, progress);
    show(rt, work, converted)
}

fn answer(rt: &impl Print, section: usize, s: &[u8]) -> io::Result<()> {
    if 26 < section {
        return show_number(rt, plain_check::plain_check(s), "no");
    }
    if text::CAP < s.len() {
        return print!(rt; "a long line");
    }
    if 20 <= section {
        return show_number(rt, search(section, s), "nothing");
    }
    let mut work = [0u8; 32768];
    run(rt, &mut work, section, s)
}

// The length of the first line, without its newline.
fn line(s: &[u8]) -> usize
    ensures { result ≤ length s.now }
{
    text_search::find(s, b"\n").unwrap_or(s.len())
}

fn answer_lines(rt: &impl Print, s: &[u8]) -> io::Result<()> {
    let mut section = 0;
    let mut start = 0;
    // The step varies: a line says where the next one begins.
    while start < s.len() {
        let end = start + line(&s[start..]);
        if s[start] == b'#' {
            section += 1;
            rt.write_all(&s[start..end])?;
        } else {
            answer(rt, section, &s[start..end])?;
        }
        rt.write_all(b"\n")?;
        if end == s.len() {
            return Ok(());
        }
        start = end + 1;
    }
    Ok(())
}

fn main(rt: HostRuntime) -> io::Result<()> {
    let mut buffer = [0; MOST];
    let n = filling::read_full(&mut rt.reader(), &mut buffer)?;
    answer_lines(&rt, &buffer[..n])
}

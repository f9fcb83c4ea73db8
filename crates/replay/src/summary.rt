// What the program writes: the cases that went wrong, and the summary.
use super::calls::Difference;
use super::case_file::Case;
use std::io;

// How many cases there were: by the number of the refusal, 0 for none; with display off; under another tall field than 31; with definitions;
// and how many went wrong.
#[derive(Clone, Copy)]
pub struct Tally {
    numbers: [u64; 16],
    off: u64,
    other_field: u64,
    defined: u64,
    wrong: u64,
}

impl Tally {
    pub fn new() -> Tally {
        Tally {
            numbers: [0; 16],
            off: 0,
            other_field: 0,
            defined: 0,
            wrong: 0,
        }
    }

    pub fn note(&mut self, case: Case, is_right: bool) {
        let number = case.setting.refusal.unwrap_or(0) as usize;
        if number < self.numbers.len() {
            self.numbers[number] = self.numbers[number].wrapping_add(1);
        }
        self.off = self.off.wrapping_add(u64::from(!case.setting.display));
        self.other_field = self
            .other_field
            .wrapping_add(u64::from(case.setting.field != text::ALL_TALL));
        self.defined = self.defined.wrapping_add(u64::from(0 < case.table));
        self.wrong = self.wrong.wrapping_add(u64::from(!is_right));
    }

    pub fn write_summary(&self, rt: &impl Print, cases: usize) -> io::Result<()> {
        println!(rt; "{cases} cases")?;
        println!(rt; "{} wrong", self.wrong)?;
        println!(rt; "{} with display off", self.off)?;
        println!(rt; "{} under another tall field than 31", self.other_field)?;
        println!(rt; "{} with definitions", self.defined)?;
        println!(rt;
            "{} done, called again with a full output, a short output and a narrow work buffer",
            self.numbers[0]
        )?;
        for number in 1..11 {
            println!(rt; "{} refused {number}", self.numbers[number])?;
        }
        println!(rt; "{} refused 15", self.numbers[15])
    }
}

// Whether nothing differs; what does is written.
pub fn tell(
    rt: &impl Print,
    i: usize,
    family: u8,
    how: &str,
    found: Result<(), Difference>,
) -> io::Result<bool> {
    let Err(what) = found else {
        return Ok(true);
    };
    println!(rt; "case {i} of family {family}, {how}: {what}")?;
    Ok(false)
}

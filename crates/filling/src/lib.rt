// Reading into a buffer: as many bytes as there are, or as fit.
#![tactic(auto)]

ghost use Rattle.std.specs.Prelude.{◌<◌, ◌≤◌, length, take, IfOk};
ghost use Rattle.std.specs.Io.KnownBytes.{Consumes, IsAtEnd};

use std::io;
use std::io::Read;

// Reads until the buffer is full or the input ends, in pieces of any size, and answers how many bytes stand at the start of the buffer.
pub fn read_full<R: Read>(reader: &mut R, buffer: &mut [u8]) -> io::Result<usize>
    ensures bound { IfOk result (λ n. n ≤ length buffer.new) }
    ensures bytes { IfOk result (λ n. Consumes (R.remaining reader.old) (R.remaining reader.new) (take n buffer.new)) }
    ensures end { IfOk result (λ n. n < length buffer.new → IsAtEnd (R.remaining reader.new)) }
{
    let mut n = 0;
    // The step varies: a read says how many bytes it gave.
    while n < buffer.len() {
        let more = reader.read(&mut buffer[n..])?;
        if more == 0 {
            return Ok(n);
        }
        n += more;
    }
    Ok(n)
}

#[cfg(test)]
mod tests {
    use super::*;
    use std::io::ErrorKind;
    use std::test::Fail;

    // Gives three bytes, one at a time, 1, 2 and 3, and fails behind the last.
    #[derive(Drop)]
    struct Halting {
        turn: u8,
    }

    impl Read for Halting {
        fn read(&mut self, buf: &mut [u8]) -> io::Result<usize> {
            if 3 <= self.turn {
                return Err(io::Error::from(ErrorKind::BrokenPipe));
            }
            if buf.is_empty() {
                return Ok(0);
            }
            self.turn += 1;
            buf[0] = self.turn;
            Ok(1)
        }
    }

    #[test]
    fn asks_no_more_than_fits(rt: HostRuntime) -> Result<(), Fail> {
        let mut buffer = [9; 3];
        assert_eq!(rt; read_full(&mut Halting { turn: 0 }, &mut buffer)?, 3);
        assert_eq!(rt; buffer, [1, 2, 3]);
        Ok(())
    }

    #[test]
    fn hands_on_an_error(rt: HostRuntime) {
        let mut buffer = [9; 4];
        match read_full(&mut Halting { turn: 0 }, &mut buffer) {
            Ok(n) => assert!(rt; false, "{n} bytes"),
            Err(e) => assert!(rt; e.kind() == ErrorKind::BrokenPipe),
        }
    }

    #[test]
    fn takes_pieces_up_to_the_end_or_the_buffers(rt: HostRuntime) -> Result<(), Fail> {
        let first: &[u8] = b"ab";
        let second: &[u8] = b"cde";
        let mut short = [b'.'; 4];
        let mut long = [b'.'; 7];
        assert_eq!(rt; read_full(&mut first.chain(second), &mut short)?, 4);
        assert_eq!(rt; short, *b"abcd");
        assert_eq!(rt; read_full(&mut first.chain(second), &mut long)?, 5);
        assert_eq!(rt; long, *b"abcde..");
        Ok(())
    }
}

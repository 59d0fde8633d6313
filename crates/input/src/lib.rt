// Reading the input of a program.
#![tactic(auto)]

ghost use Rattle.std.specs.Prelude.{◌≤◌, ◌<◌, length, take, IfOk};
ghost use Rattle.std.specs.Io.KnownBytes.{Consumes, IsAtEnd};

use std::io;
use std::io::Read;

// Reads until the buffer is full or the reader ends, and answers how many bytes were read, into the buffer's start.
pub fn read_full<R: Read>(reader: &mut R, buf: &mut [u8]) -> io::Result<usize>
    ensures within { IfOk result (λ n. n ≤ length buf.new) }
    ensures read { IfOk result (λ n. Consumes (R.remaining reader.old) (R.remaining reader.new) (take n buf.new)) }
    ensures full { IfOk result (λ n. n < length buf.new → IsAtEnd (R.remaining reader.new)) }
{
    let mut done = 0;
    // not counted: a read gives as many bytes as it has
    while done < buf.len() {
        let n = reader.read(&mut buf[done..])?;
        if n == 0 {
            break;
        }
        done += n;
    }
    Ok(done)
}

#[cfg(test)]
mod tests {
    use super::*;
    use std::io::{Error, ErrorKind};
    use std::test::Fail;

    // Gives its bytes one at a time, and then an end or an error.
    #[derive(Drop)]
    struct Slow {
        bytes: &'static [u8],
        breaks: bool,
    }

    impl Read for Slow {
        fn read(&mut self, buf: &mut [u8]) -> io::Result<usize> {
            match self.bytes {
                [first, rest @ ..] => {
                    let n = buf.len().min(1);
                    buf[..n].fill(*first);
                    self.bytes = rest;
                    Ok(n)
                }
                [] if self.breaks => Err(Error::from(ErrorKind::ConnectionReset)),
                [] => Ok(0),
            }
        }
    }

    fn by_byte(bytes: &'static [u8], breaks: bool) -> Slow {
        Slow { bytes, breaks }
    }

    #[test]
    fn reads_on(rt: HostRuntime) -> Result<(), Fail> {
        let mut buf = [9u8; 4];
        assert_eq!(rt; read_full(&mut by_byte(b"abc", false), &mut buf)?, 3);
        assert_eq!(rt; buf, [b'a', b'b', b'c', 9]);
        assert_eq!(rt; read_full(&mut by_byte(b"abcde", true), &mut buf)?, 4);
        assert_eq!(rt; buf, [b'a', b'b', b'c', b'd']);
        Ok(())
    }

    #[test]
    fn says_that_a_read_failed(rt: HostRuntime) {
        let mut buf = [0u8; 4];
        let read = read_full(&mut by_byte(b"abc", true), &mut buf);
        assert_eq!(rt; read.map_err(|e| e.kind()), Err(ErrorKind::ConnectionReset));
    }
}

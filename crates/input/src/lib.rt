// Reads what a reader or a file has into a lent array.
#![tactic(auto)]

ghost use Rattle.std.specs.Prelude.{◌≤◌, length, take, IfSome};
ghost use Rattle.std.specs.Io.KnownBytes.{Consumes};
ghost use Rattle.input.specs.Counts.{IsPrefixLen};

use std::fs;
use std::io::Read;
use std::rt::Files;

// Reads until the array is full, the input ends or a read fails; answers how many bytes it put at the front of the array. Of a reader whose bytes are known they are those that it had next. (A `while`: a turn goes on by as many bytes as were read, and `read_exact`, which has this loop, doesn't say how many came before the end.)
pub fn read_full<R: Read>(reader: &mut R, buf: &mut [u8]) -> usize
    ensures within { IsPrefixLen result buf.new }
    ensures bytes { Consumes (R.remaining reader.old) (R.remaining reader.new) (take result buf.new) }
{
    let mut done = 0;
    while done < buf.len() {
        let n = reader.read(&mut buf[done..]).unwrap_or(0);
        if n == 0 {
            break;
        }
        done += n;
    }
    done
}

// What a file holds, at most the array, in the front of which it stands; nothing where it can't be opened.
pub fn load<'a>(files: &impl Files, path: &str, buf: &'a mut [u8]) -> Option<&'a [u8]>
    ensures { IfSome result (λ bytes. length bytes.now ≤ length buf.old) }
{
    let mut file = fs::open(files, path).ok()?;
    let n = read_full(&mut file, buf);
    Some(&buf[..n])
}

#[cfg(test)]
mod tests {
    use super::*;
    use std::io;
    use std::test::Fail;

    // Gives one byte a read so many times, and then fails.
    #[derive(Drop)]
    struct Failing {
        times: u8,
    }

    impl Read for Failing {
        fn read(&mut self, buf: &mut [u8]) -> io::Result<usize> {
            if self.times == 0 || buf.is_empty() {
                return Err(io::Error::from(io::ErrorKind::Other));
            }
            self.times -= 1;
            buf[0] = self.times;
            Ok(1)
        }
    }

    #[test]
    fn a_failed_read_ends_it(rt: HostRuntime) -> Result<(), Fail> {
        let mut buf = [9u8; 4];
        let n = read_full(&mut Failing { times: 3 }, &mut buf);
        assert_eq!(rt; n, 3);
        assert_eq!(rt; buf, [2, 1, 0, 9]);
        Ok(())
    }

    #[test]
    fn a_longer_input_is_cut(rt: HostRuntime) -> Result<(), Fail> {
        let mut buf = [0u8; 4];
        let mut input = io::Cursor::new(b"abcdef");
        let n = read_full(&mut input, &mut buf);
        assert_eq!(rt; n, 4);
        assert_eq!(rt; buf, *b"abcd");
        Ok(())
    }

    #[test]
    fn no_file_gives_nothing(rt: HostRuntime) -> Result<(), Fail> {
        let mut buf = [0u8; 4];
        assert!(rt; load(&rt, "no/such/file", &mut buf).is_none());
        Ok(())
    }
}

// What the programs do with the system: they read standard input, and write bytes to standard output.
#![tactic(auto)]

ghost use Rattle.std.specs.Prelude.{◌≤◌, ◌<◌, length, take, IfOk};
ghost use Rattle.std.specs.Io.KnownBytes.{Consumes, IsAtEnd};

use std::io;
use std::io::{Read, Write};

// Reads to the end of what a reader gives, or as much of it as `buf` holds; hands back how many bytes it read.
pub fn read_full<R: Read>(input: &mut R, buf: &mut [u8]) -> io::Result<usize>
    ensures within { IfOk result (λ n. n ≤ length buf.new) }
    ensures in_order { IfOk result (λ n. Consumes (R.remaining input.old) (R.remaining input.new) (take n buf.new)) }
    ensures to_the_end { IfOk result (λ n. n < length buf.new → IsAtEnd (R.remaining input.new)) }
{
    let mut done = 0;
    // By a count of bytes: how many come at a time is known only once they are read.
    while done < buf.len() {
        let n = input.read(&mut buf[done..])?;
        if n == 0 {
            return Ok(done);
        }
        done += n;
    }
    Ok(done)
}

// Reads standard input to its end, or as much of it as `buf` holds; hands back how many bytes it read.
pub fn read_input(rt: &HostRuntime, buf: &mut [u8]) -> io::Result<usize>
    ensures { IfOk result (λ n. n ≤ length buf.new) }
{
    let mut input = rt.stdin();
    read_full(&mut input, buf)
}

// Writes bytes to standard output.
pub fn write_bytes(rt: &HostRuntime, bytes: &[u8]) -> io::Result<()> {
    rt.stdout().write_all(bytes)
}

#[cfg(test)]
mod tests {
    use super::read_full;

    #[test]
    fn reads_as_much_as_there_is_or_as_fits(rt: HostRuntime) {
        let mut input: &[u8] = b"12345";
        let mut few = [0u8; 3];
        let mut many = [0u8; 4];
        let three = read_full(&mut input, &mut few).expect(&rt, "a slice can be read");
        let two = read_full(&mut input, &mut many).expect(&rt, "a slice can be read");
        assert_eq!(rt; three, 3);
        assert_eq!(rt; two, 2);
        assert!(rt; few == [b'1', b'2', b'3']);
        assert!(rt; many == [b'4', b'5', 0, 0]);
    }
}

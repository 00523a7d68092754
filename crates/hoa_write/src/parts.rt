// Parts of a line: a byte where a test holds or between the members of a set, and a number. Each returns the place after it.
ghost use Rattle.std.specs.Prelude.{◌+◌, ◌%◌, ◌^◌, ◌≤◌, ◌<◌, ltb, length};
ghost use Rattle.decimal.specs.Wrote.{Wrote};
ghost use Rattle.hoa_text.specs.Written.{decimal};
ghost use Rattle.hoa_write.specs.Pieces.{byte_if};

use bits::sets::single;
use pieces::byte;

// A byte where the test holds, and otherwise nothing.
pub fn byte_if(test: bool, b: u8, out: &mut [u8], at: usize) -> usize
    requires { at + length (byte_if test b) ≤ length out.old }
    ensures { Wrote out.old at (byte_if test b) out.new result }
{
    if test {
        return byte(b, out, at);
    }
    at
}

// A byte in front of the member i of the set m, but for its first.
pub fn byte_between(m: u16, i: usize, b: u8, out: &mut [u8], at: usize) -> usize
    requires { (i < 16) × (at + length (byte_if (ltb 0 (m % 2 ^ i)) b) ≤ length out.old) }
    ensures { Wrote out.old at (byte_if (ltb 0 (m % 2 ^ i)) b) out.new result }
{
    let lower = m % single(i);
    byte_if(lower > 0, b, out, at)
}

// All numbers of a text have at most two digits.
pub fn number(n: usize, out: &mut [u8], at: usize) -> usize
    requires { (n < 100) × (at + length (decimal n) ≤ length out.old) }
    ensures { Wrote out.old at (decimal n) out.new result }
{
    decimal::write(n as u64, out, at)
}

// Lines of a name and numbers.
ghost use Rattle.std.specs.Prelude.{◌++◌, ◌+◌, ◌*◌, ◌≤◌, length};
ghost use Rattle.decimal.specs.Wrote.{Wrote};
ghost use Rattle.console_report.specs.Lines.{row, refused_line, header_line, ask_line, differ_line};

use crate::parts::spaced;
use pieces::{byte, word};
use refusals::Refusal;

// Bytes of a lent buffer: more than a name and three numbers have.
pub const LINE: usize = 80;

// `refused NUMBER A B`.
pub fn refused(x: Refusal, out: &mut [u8; LINE]) -> usize
    ensures { Wrote out.old 0 (refused_line x) out.new result }
{
    let code = x.code();
    let numbers = [code.number as u64, code.first as u64, code.second as u64];
    line(b"refused", &numbers, out)
}

// `p cnf V C`.
pub fn header(variables: u64, clauses: u64, out: &mut [u8; LINE]) -> usize
    ensures { Wrote out.old 0 (header_line variables clauses) out.new result }
{
    line(b"p cnf", &[variables, clauses], out)
}

// `ask N M`.
pub fn ask(n: usize, m: usize, out: &mut [u8; LINE]) -> usize
    ensures { Wrote out.old 0 (ask_line n m) out.new result }
{
    line(b"ask", &[n as u64, m as u64], out)
}

// `differ P L`.
pub fn differ(prefix: usize, cycle: usize, out: &mut [u8; LINE]) -> usize
    ensures { Wrote out.old 0 (differ_line prefix cycle) out.new result }
{
    line(b"differ", &[prefix as u64, cycle as u64], out)
}

// A name, and numbers.
fn line(name: &[u8], numbers: &[u64], out: &mut [u8]) -> usize
    requires { length name.now + 21 * length numbers.now + 1 ≤ length out.old }
    ensures { Wrote out.old 0 (name.now ++ row numbers.now) out.new result }
{
    let mut at = word(name, out, 0);
    for n in numbers {
        at = spaced(*n, out, at);
    }
    byte(b'\n', out, at)
}

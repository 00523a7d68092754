// A number after a space, written at a place of a lent buffer.
ghost use Rattle.std.specs.Prelude.{◌∷◌, ◌+◌, ◌≤◌, length};
ghost use Rattle.decimal.specs.Decimal.{decimal};
ghost use Rattle.decimal.specs.Wrote.{Wrote};

use pieces::byte;

pub fn spaced(n: u64, out: &mut [u8], at: usize) -> usize
    requires { at + length (32 ∷ decimal n) ≤ length out.old }
    ensures { Wrote out.old at (32 ∷ decimal n) out.new result }
{
    let next = byte(b' ', out, at);
    decimal::write(n, out, next)
}

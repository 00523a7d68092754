// What lines are made of beside numbers: bytes and words, written at a place of a lent buffer. Each returns the place after it. Where there is no room
// nothing is written, and the place comes back.
#![tactic(auto)]

ghost use Rattle.std.specs.Prelude.{[], ◌∷◌, ◌+◌, ◌≤◌, length};
ghost use Rattle.decimal.specs.Wrote.{Wrote, WroteIfRoom};

pub fn byte(b: u8, out: &mut [u8], at: usize) -> usize
    ensures { WroteIfRoom out.old at (b ∷ []) out.new result }
{
    if at < out.len() {
        out[at] = b;
        return at + 1;
    }
    at
}

pub fn word(bytes: &[u8], out: &mut [u8], at: usize) -> usize
    ensures { WroteIfRoom out.old at bytes.now out.new result }
{
    let size = out.len();
    if size < at {
        return at;
    }
    if size - at < bytes.len() {
        return at;
    }
    let end = at + bytes.len();
    out[at..end].copy_from_slice(bytes);
    end
}

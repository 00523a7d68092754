// The part of a buffer that was filled.
ghost use Rattle.std.specs.Prelude.{◌≡◌, take};

// The first bytes, as many as there are of `length`.
pub fn first(text: &[u8], length: usize) -> &[u8]
    ensures { result.now ≡ take length text.now }
{
    if length < text.len() {
        return &text[..length];
    }
    text
}

// The bytes of proposition names.
ghost use Rattle.std.specs.Prelude.{◌≡◌};
ghost use Rattle.automaton.specs.Value.{printable};

// 32 to 126, without quote and backslash.
pub fn printable(byte: u8) -> bool
    ensures { result ≡ printable byte }
{
    byte >= 32 && byte <= 126 && byte != 34 && byte != 92
}

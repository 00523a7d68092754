// Powers of two: numbers of letters, and of sets of marks.
ghost use Rattle.std.specs.Prelude.{◌≡◌, ◌^◌, ◌≤◌, ◌<◌, min};

// 2 to the k, as far as letters and sets of marks go; past that, the most there are.
pub fn power_of_two(k: usize) -> usize
    ensures is { result ≡ 2 ^ min k 4 }
    ensures bounded { (0 < result) × (result ≤ 16) }
{
    match k {
        0 => 1,
        1 => 2,
        2 => 4,
        3 => 8,
        _ => 16,
    }
}

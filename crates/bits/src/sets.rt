// Sets of at most 16 letters, states or marks as numbers: bit i for i.
ghost use Rattle.std.specs.Prelude.{◌≡◌, ◌≤◌, min};
ghost use Rattle.meaning.specs.BitSet.{has};
ghost use Rattle.meaning.specs.Counting.{how_many};
ghost use Rattle.bits.specs.Sets.{Lowest, single};

// How many numbers a set can hold.
const MEMBERS: usize = 16;

// The lowest number of a set below `count`; `count` where there is none.
pub fn lowest(set: u16, count: usize) -> usize
    ensures { Lowest set count result }
{
    for i in 0..count {
        if has(set, i) {
            return i;
        }
    }
    count
}

pub fn has(set: u16, i: usize) -> bool
    ensures { result ≡ has set i }
{
    if i >= MEMBERS {
        return false;
    }
    (set >> i) % 2 == 1
}

// The set of i alone; past the numbers that a set can hold, no member.
pub fn single(i: usize) -> u16
    ensures { result ≡ single i }
{
    if i >= MEMBERS {
        return 0;
    }
    1 << i
}

// How many numbers of a set are below k.
pub fn below(set: u16, k: usize) -> usize
    ensures is { result ≡ how_many (min k 16) (has set) }
    ensures bounded { result ≤ 16 }
{
    if k >= MEMBERS {
        return u16::count_ones(set) as usize;
    }
    u16::count_ones(set % (1 << k)) as usize
}

// Decimal numbers, written into a lent buffer. Digits are made by subtracting powers of ten: nothing here divides.
#![tactic(auto)]

ghost use Rattle.std.specs.Prelude.{◌≡◌, ◌+◌, ◌*◌, ◌^◌, ◌≤◌, ◌<◌, min};
ghost use Rattle.decimal.specs.Decimal.{decimal, digits, places};
ghost use Rattle.decimal.specs.Spelling.{Fits, Spells};
ghost use Rattle.decimal.specs.Wrote.{Wrote, WroteIfRoom};

// Writes n at the place `at`, and returns the place after it. Where there is no room nothing is written, and `at` comes back.
pub fn write(n: u64, dst: &mut [u8], at: usize) -> usize
    ensures { WroteIfRoom dst.old at (decimal n) dst.new result }
{
    let count = digit_count(n);
    let size = dst.len();
    if size < at {
        return at;
    }
    if size - at < count {
        return at;
    }
    write_digits(n, count, dst, at)
}

// How many digits n has. Counted from below, since most numbers are short.
fn digit_count(n: u64) -> usize
    ensures { result ≡ places 19 1 n }
{
    for count in 1..20 {
        if n < power_of_ten(count) {
            return count;
        }
    }
    20
}

// A `match` and no table: an indexed constant array would be copied to the stack at each use.
fn power_of_ten(k: usize) -> u64
    requires { k < 20 }
    ensures { result ≡ 10 ^ k }
{
    match k {
        0 => 1,
        1 => 10,
        2 => 100,
        3 => 1000,
        4 => 10000,
        5 => 100000,
        6 => 1000000,
        7 => 10000000,
        8 => 100000000,
        9 => 1000000000,
        10 => 10000000000,
        11 => 100000000000,
        12 => 1000000000000,
        13 => 10000000000000,
        14 => 100000000000000,
        15 => 1000000000000000,
        16 => 10000000000000000,
        17 => 100000000000000000,
        18 => 1000000000000000000,
        _ => 10000000000000000000,
    }
}

// Where the writing of a number has come to: what is left of it, and the place of the next digit.
#[derive(Clone, Copy)]
struct Rest {
    number: u64,
    at: usize,
}

// The last `count` digits of n, which has no more; no number has a digit at place 20. No loop runs over them: inside one the compiler makes jumps of the choices in
// `leading_digit`, and a jump that hangs on a digit is often guessed wrong.
fn write_digits(n: u64, count: usize, dst: &mut [u8], at: usize) -> usize
    requires { (0 < count) × (count ≤ 20) × Fits dst.old at count n }
    ensures { Wrote dst.old at (digits count n) dst.new result }
{
    let mut rest = Rest { number: n, at };
    rest = four_digits(rest, 17, count, dst);
    rest = four_digits(rest, 13, count, dst);
    rest = four_digits(rest, 9, count, dst);
    rest = four_digits(rest, 5, count, dst);
    rest = four_digits(rest, 1, count, dst);
    last_digit(rest, dst)
}

// The digits at four places, from the highest on, as far as they are among the last `count`.
fn four_digits(before: Rest, place: usize, count: usize, dst: &mut [u8]) -> Rest
    requires { (count ≤ 20) × Fits dst.old before.at (min count (place + 4)) before.number }
    ensures { Spells dst.old before.at (min count (place + 4)) before.number dst.new result.at (min count place) result.number }
{
    if count <= place {
        return before;
    }
    let mut rest = one_digit(before, place + 3, count, dst);
    rest = one_digit(rest, place + 2, count, dst);
    rest = one_digit(rest, place + 1, count, dst);
    one_digit(rest, place, count, dst)
}

// The digit at a place, if it is among the last `count`.
fn one_digit(before: Rest, place: usize, count: usize, dst: &mut [u8]) -> Rest
    requires { (count ≤ 20) × Fits dst.old before.at (min count (place + 1)) before.number }
    ensures { Spells dst.old before.at (min count (place + 1)) before.number dst.new result.at (min count place) result.number }
{
    if count <= place {
        return before;
    }
    let leading = leading_digit(before.number, power_of_ten(place));
    let at = before.at;
    dst[at] = b'0' + leading.digit;
    Rest {
        number: leading.rest,
        at: at + 1,
    }
}

// The digit at place 0: what is left when the powers above have been taken away.
fn last_digit(rest: Rest, dst: &mut [u8]) -> usize
    requires { Fits dst.old rest.at 1 rest.number }
    ensures { Wrote dst.old rest.at (digits 1 rest.number) dst.new result }
{
    let at = rest.at;
    dst[at] = b'0' + rest.number as u8;
    at + 1
}

#[derive(Clone, Copy)]
struct Leading {
    digit: u8,
    rest: u64,
}

// The digit of n at a power of ten, where it has none above, and what is left of n: the power is taken away as often as it goes. Nine turns whatever the digit, so
// that they can be written out without a jump.
fn leading_digit(n: u64, power: u64) -> Leading
    requires { n < power * 10 }
    ensures is { (n ≡ result.digit * power + result.rest) × (result.rest < power) }
    ensures small { result.digit < 10 }
{
    let mut digit: u8 = 0;
    let mut rest = n;
    for turn in 0..9u8 {
        if power <= rest {
            rest -= power;
            digit += 1;
        }
    }
    Leading { digit, rest }
}

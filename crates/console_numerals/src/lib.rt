// Numbers as they are given to a program: digits, and as many bits as it has.
#![tactic(auto)]

ghost use Rattle.std.specs.Prelude.{◌≡◌, ◌+◌, ◌-◌, ◌*◌, ◌^◌, ltb};
ghost use Rattle.hoa_text.specs.Tokens.{digit};
ghost use Rattle.console_numerals.specs.Numbers.{number_of};

// None where there are no digits, another byte among them, or more than 64 bits.
pub fn parse(word: &[u8]) -> Option<u64>
    ensures { result ≡ number_of word.now }
{
    if word.is_empty() {
        return None;
    }
    let mut value: u64 = 0;
    for byte in word {
        if !is_digit(*byte) {
            return None;
        }
        let digit = u64::from(*byte - b'0');
        value = value.checked_mul(10)?.checked_add(digit)?;
    }
    Some(value)
}

fn is_digit(byte: u8) -> bool
    ensures { result ≡ digit byte }
{
    (b'0' <= byte) & (byte <= b'9')
}

// Bytes by their kinds, and runs of them.
ghost use Rattle.std.specs.Prelude.{◌≡◌, ◌≤◌, length, get_or};
ghost use Rattle.hoa_text.specs.Tokens.{blank, digit, opens_word, in_word};
ghost use Rattle.hoa_text.specs.RunOffsets.{Run};
ghost use Rattle.hoa_text.specs.SignOffsets.{opens_sign};
ghost use Rattle.hoa_tokens.specs.Answers.{Skipped};

// The offset behind the blanks at `at`.
pub fn skip_blanks(text: &[u8], at: usize) -> usize
    ensures { Skipped text.now at result }
{
    for i in at..text.len() {
        if !is_blank(text[i]) {
            return i;
        }
    }
    at.max(text.len())
}

// The end of the run of a word's bytes at `from`.
pub fn word_end(text: &[u8], from: usize) -> usize
    requires { from ≤ length text.now }
    ensures { Run in_word text.now from result }
{
    for end in from..text.len() {
        if !in_word(text[end]) {
            return end;
        }
    }
    text.len()
}

// The byte at an offset, 0 past the end.
pub fn byte_at(text: &[u8], at: usize) -> u8
    ensures { result ≡ get_or text.now at 0 }
{
    if at < text.len() { text[at] } else { 0 }
}

fn is_blank(b: u8) -> bool
    ensures { result ≡ blank b }
{
    (b == b' ') | ((b == b'\t') | ((b == b'\n') | (b == b'\r')))
}

pub fn is_digit(b: u8) -> bool
    ensures { result ≡ digit b }
{
    (b'0' <= b) & (b <= b'9')
}

pub fn opens_word(b: u8) -> bool
    ensures { result ≡ opens_word b }
{
    let capital = (b'A' <= b) & (b <= b'Z');
    let small = (b'a' <= b) & (b <= b'z');
    capital | (small | (b == b'_'))
}

fn in_word(b: u8) -> bool
    ensures { result ≡ in_word b }
{
    opens_word(b) | (is_digit(b) | (b == b'-'))
}

pub fn opens_sign(b: u8) -> bool
    ensures { result ≡ opens_sign b }
{
    let operator = (b'!' == b) | ((b'&' == b) | (b'|' == b));
    let round = (b'(' == b) | (b')' == b);
    let square = (b'[' == b) | (b']' == b);
    let curly = (b'{' == b) | (b'}' == b);
    operator | (round | (square | (curly | (b'-' == b))))
}

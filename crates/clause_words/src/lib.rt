// The text of clauses: their literals, and whole lines.
#![tactic(auto)]

ghost use Rattle.std.specs.Prelude.{◌≡◌, [], ◌∷◌, ◌+◌, ◌≤◌, length};
ghost use Rattle.decimal.specs.Wrote.{Wrote};
ghost use Rattle.clause_words.specs.Text.{literal_text, spaced_text};
ghost use Rattle.clause_words.specs.Written.{LiteralsIfRoom, LineIfRoom};

use pieces::word;

// The bytes that a literal may want: a minus, ten digits and a space.
const LITERAL: usize = 12;

// The literals that a line may have.
const LITERALS: usize = 8;

// The bytes that a line may want here, where a literal may have any variable.
const LINE: usize = LITERALS * LITERAL + 2;

// The line of a clause: its literals, then 0 and a line feed. Where the clause has more than 8 literals, or there is no room, nothing is written, and `at`
// comes back.
pub fn write_line(clause: &[i32], text: &mut [u8], at: usize) -> usize
    ensures { LineIfRoom text.old at clause.now text.new result }
{
    if clause.len() > LITERALS {
        return at;
    }
    let mut line = [0u8; LINE];
    let to = write_literals(clause, &mut line, 0);
    line[to] = b'0';
    line[to + 1] = b'\n';
    let size = to + 2;
    word(&line[..size], text, at)
}

// The literals, each with a space after it. Where there are not 12 bytes for each nothing is written, and `at` comes back.
pub fn write_literals(clause: &[i32], text: &mut [u8], at: usize) -> usize
    ensures { LiteralsIfRoom text.old at clause.now text.new result }
{
    let size = text.len();
    if size < at {
        return at;
    }
    if (size - at) / LITERAL < clause.len() {
        return at;
    }
    let mut to = at;
    for literal in clause {
        to = write_spaced(*literal, text, to);
    }
    to
}

fn write_spaced(literal: i32, text: &mut [u8], at: usize) -> usize
    requires { at + 12 ≤ length text.old }
    ensures { Wrote text.old at (spaced_text (literal ∷ [])) text.new result × (result ≤ at + 12) }
{
    let to = write_literal(literal, text, at);
    text[to] = b' ';
    to + 1
}

// A minus where the literal is negative, and its variable.
fn write_literal(literal: i32, text: &mut [u8], at: usize) -> usize
    requires { at + length (literal_text literal) ≤ length text.old }
    ensures { Wrote text.old at (literal_text literal) text.new result }
{
    let variable = u64::from(literal.unsigned_abs());
    if literal < 0 {
        text[at] = b'-';
        return decimal::write(variable, text, at + 1);
    }
    decimal::write(variable, text, at)
}

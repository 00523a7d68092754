// Texts of literals, each kept in a slot once it was spelled, and copied from there. A slot's entry is the name of its text times 128, and the length of the
// text; 0 where it has none. What another name's text leaves is spelled anew.
ghost use Rattle.std.specs.Prelude.{◌≡◌, [], ◌∷◌, ◌+◌, ◌*◌, ◌≤◌, ◌<◌, length, set, take, drop, replicate};
ghost use Rattle.decimal.specs.Wrote.{Wrote, WroteIfRoom};
ghost use Rattle.clause_sizes.specs.Sizes.{Fitting};
ghost use Rattle.clause_sizes.specs.Numbers.{InFile};
ghost use Rattle.clause_indices.specs.Indices.{Within, path_at};
ghost use Rattle.clause_words.specs.Text.{spaced_text};
ghost use Rattle.clause_text.specs.Kept.{Kept, Found, Looked};
ghost use Rattle.clause_text.specs.Blocks.{signed, literal_texts, middle_of, middle_slot, pair_name, middle_texts, Texts};

use automaton::Automaton;
use clause_indices::Indices;
use clause_indices::premise::premise;
use clause_literals::{negative, positive};
use clause_sizes::Sizes;
use clause_step::CLAUSE;
use clause_words::write_literals;
use pieces::word;

// More than the length of any text.
const NAME: usize = 128;

// Slots for literals, by their numbers. A literal may want 12 bytes.
const LITERALS: usize = 1024;

const LITERAL_WIDTH: usize = 16;

const LITERAL_BYTES: usize = LITERALS * LITERAL_WIDTH;

// Slots for steps between two candidate states with their marks, by a letter and the set K. The two states are the name.
const MIDDLES: usize = Automaton::LETTERS << Automaton::SETS;

const MIDDLE_WIDTH: usize = CLAUSE * 12;

const MIDDLE_BYTES: usize = MIDDLES * MIDDLE_WIDTH;

// The texts of so many slots, one after another, and the slots' entries.
#[derive(Drop)]
pub struct Store<const SLOTS: usize, const BYTES: usize> {
    pub bytes: [u8; BYTES],
    pub sizes: [usize; SLOTS],
}

impl<const SLOTS: usize, const BYTES: usize> Store<SLOTS, BYTES> {
    // No slot has a text.
    pub fn new() -> Self
        ensures { result.sizes ≡ replicate SLOTS 0 }
    {
        Store {
            bytes: [0; BYTES],
            sizes: [0; SLOTS],
        }
    }

    // The length of the slot's text, where that is the name's.
    fn find(&self, slot: usize, name: usize) -> Option<usize>
        requires { slot < SLOTS }
        ensures { Looked self.now.sizes slot name result }
    {
        let entry = self.sizes[slot];
        if entry / NAME == name {
            return Some(entry % NAME);
        }
        None
    }

    // The slot now has the name's text, of so many bytes.
    fn enter(&mut self, slot: usize, name: usize, size: usize)
        requires { (slot < SLOTS) × (name ≤ 9999999) × (size < 128) }
        ensures sizes { self.new.sizes ≡ set self.old.sizes slot (name * 128 + size) }
        ensures bytes { self.new.bytes ≡ self.old.bytes }
    {
        self.sizes[slot] = name * NAME + size;
    }

    // Writes so many of the bytes, from the place `first` on, at the place `at`.
    fn copy(&self, first: usize, size: usize, text: &mut [u8], at: usize) -> usize
        requires { first + size ≤ BYTES }
        ensures { WroteIfRoom text.old at (take size (drop first self.now.bytes)) text.new result }
    {
        let end = first + size;
        let all = &self.bytes[..];
        word(&all[first..end], text, at)
    }
}

// All that is kept while lines are written: first paths, middle literals and last paths. The stores are lent and not held, for speed: as
// parts of one value the loop over lines took 3% more instructions.
#[derive(Drop)]
pub struct Stores<'a> {
    pub heads: &'a mut Store<LITERALS, LITERAL_BYTES>,
    pub middles: &'a mut Store<MIDDLES, MIDDLE_BYTES>,
    pub lasts: &'a mut Store<LITERALS, LITERAL_BYTES>,
}

impl Store<LITERALS, LITERAL_BYTES> {
    // Writes a variable, or its negative, at the place `at`.
    pub fn write_literal(
        &mut self,
        minus: bool,
        variable: usize,
        text: &mut [u8],
        at: usize,
    ) -> usize
        requires variable_nonzero { (0 < variable) × (variable ≤ 9999999) }
        requires kept { Kept (literal_texts minus) 16 self.old }
        requires variable_in_bounds { at + length (spaced_text (signed minus variable ∷ [])) ≤ length text.old }
        ensures kept_2 { Kept (literal_texts minus) 16 self.new }
        ensures wrote { Wrote text.old at (spaced_text (signed minus variable ∷ [])) text.new result }
    {
        let slot = variable % LITERALS;
        let size = self.literal_in_slot(minus, variable, slot);
        self.copy(slot * LITERAL_WIDTH, size, text, at)
    }

    // Spells it in its slot where it is not there, and returns its length.
    fn literal_in_slot(&mut self, minus: bool, variable: usize, slot: usize) -> usize
        requires variable_nonzero { (0 < variable) × (variable ≤ 9999999) × (slot < 1024) }
        requires kept { Kept (literal_texts minus) 16 self.old }
        ensures { Found (literal_texts minus) 16 self.new slot variable result }
    {
        if let Some(size) = self.find(slot, variable) {
            return size;
        }
        let size = keep_literal(minus, variable, &mut self.bytes, slot * LITERAL_WIDTH);
        self.enter(slot, variable, size);
        size
    }
}

// Spells a literal in a slot, and returns the length of its text.
fn keep_literal(minus: bool, variable: usize, kept: &mut [u8; LITERAL_BYTES], at: usize) -> usize
    requires { (variable ≤ 9999999) × (at + 16 ≤ 16384) }
    ensures { Wrote kept.old at (spaced_text (signed minus variable ∷ [])) kept.new (at + result) × (result ≤ 16) }
{
    let literals = [literal(minus, variable)];
    let end = write_literals(&literals, kept, at);
    end - at
}

fn literal(minus: bool, variable: usize) -> i32
    requires { variable ≤ 9999999 }
    ensures { result ≡ signed minus variable }
{
    if minus {
        return negative(variable);
    }
    positive(variable)
}

impl Store<MIDDLES, MIDDLE_BYTES> {
    // Writes -step(p, l, t) and the marks of p, l, t against K.
    pub fn write_middle(&mut self, z: Sizes, x: Indices, text: &mut [u8], at: usize) -> usize
        requires fitting { Fitting z × Within z x × InFile z (path_at x) }
        requires kept { Kept (middle_texts z) 96 self.old }
        requires k_in_bounds { at + length (spaced_text (middle_of z x.p.0 x.t.0 x.l x.k)) ≤ length text.old }
        ensures kept_2 { Kept (middle_texts z) 96 self.new }
        ensures wrote { Wrote text.old at (spaced_text (middle_of z x.p.0 x.t.0 x.l x.k)) text.new result }
    {
        let slot = x.l * z.candidate.subsets + x.k;
        let size = self.middle_in_slot(z, x, slot);
        self.copy(slot * MIDDLE_WIDTH, size, text, at)
    }

    // Spells them in their slot where they are not there, and returns the length of their text.
    fn middle_in_slot(&mut self, z: Sizes, x: Indices, slot: usize) -> usize
        requires fitting { Fitting z × Within z x × InFile z (path_at x) × (slot ≡ middle_slot z x.l x.k) }
        requires kept { Kept (middle_texts z) 96 self.old }
        ensures { Found (middle_texts z) 96 self.new slot (pair_name z x.p.0 x.t.0) result }
    {
        let pair = 1 + (x.p.0 * z.candidate.states + x.t.0);
        if let Some(size) = self.find(slot, pair) {
            return size;
        }
        let size = keep_middle(z, x, &mut self.bytes, slot * MIDDLE_WIDTH);
        self.enter(slot, pair, size);
        size
    }
}

fn keep_middle(z: Sizes, x: Indices, kept: &mut [u8; MIDDLE_BYTES], at: usize) -> usize
    requires fitting { Fitting z × Within z x × InFile z (path_at x) }
    requires at_bound { at + 96 ≤ 24576 }
    ensures { Wrote kept.old at (spaced_text (middle_of z x.p.0 x.t.0 x.l x.k)) kept.new (at + result) × (result ≤ 96) }
{
    let mut clause = [0i32; CLAUSE];
    let count = premise(z, x, &mut clause);
    let end = write_literals(&clause[1..count], kept, at);
    end - at
}

// The words that name a profile: what is named for a clause file beside the candidate's numbers of states and sets.
#![tactic(auto)]

ghost use Rattle.std.specs.Prelude.{◌≡◌};
ghost use Rattle.console_profiles.specs.Profiles.{listing_of, as_mask, mask_of, profile_of};

use acceptance::every_set;
use clause_sizes::{Listing, Target};
use console_numerals::parse;
use hoa_words::same;

// Why a word names no mask, or words no profile.
#[derive(Clone, Copy)]
pub enum Unnamed {
    // A yes past the sets of marks of any automaton.
    Past,
    // No such word.
    Unknown,
}

// The list is `1` or `2`, and of the places for marks there are transitions.
pub fn profile_of(
    list: &[u8],
    acceptance: &[u8],
    marks: &[u8],
    states: usize,
    sets: usize,
) -> Result<Target, Unnamed>
    ensures { result ≡ profile_of list.now acceptance.now marks.now states sets }
{
    if !(same(b"1", list) | same(b"2", list)) {
        return Err(Unnamed::Unknown);
    }
    if !same(b"transitions", marks) {
        return Err(Unnamed::Unknown);
    }
    let acceptance = mask_of(acceptance, sets)?;
    let listing = listing_of(list);
    Ok(Target {
        states,
        sets,
        acceptance,
        listing,
    })
}

// `2` names the second clause list, every other word the first.
pub fn listing_of(word: &[u8]) -> Listing
    ensures { result ≡ listing_of word.now }
{
    if same(b"2", word) {
        Listing::Second
    } else {
        Listing::First
    }
}

// `all` is Inf of all sets.
pub fn mask_of(word: &[u8], sets: usize) -> Result<u16, Unnamed>
    ensures { result ≡ mask_of word.now sets }
{
    if same(b"all", word) {
        return Ok(every_set(sets));
    }
    as_mask(parse(word))
}

fn as_mask(number: Option<u64>) -> Result<u16, Unnamed>
    ensures { result ≡ as_mask number }
{
    let value = number.ok_or(Unnamed::Unknown)?;
    u16::try_from(value).map_err(|_| Unnamed::Past)
}

// An acceptance as a mask: bit M says yes or no for the set of marks M, that is, whether a run which meets just these sets
// infinitely often is accepting.
#![tactic(auto)]

ghost use Rattle.std.specs.Prelude.{◌≡◌};
ghost use Rattle.acceptance.specs.Masks.{every_set, all_true, own_sets};

use bits::powers::power_of_two;
use bits::sets::single;

// Inf of all sets: yes for all of them together, and for no other set of marks. Past the sets that there can be, that of the most
// there are; so below.
pub fn every_set(sets: usize) -> u16
    ensures { result ≡ every_set sets }
{
    single(power_of_two(sets) - 1)
}

// A yes for every set of marks.
pub fn all_true(sets: usize) -> u16
    ensures { result ≡ all_true sets }
{
    ((1usize << power_of_two(sets)) - 1) as u16
}

// Whether there is no yes past the sets of marks of so many sets.
pub fn own_sets(acceptance: u16, sets: usize) -> bool
    ensures { result ≡ own_sets acceptance sets }
{
    acceptance <= all_true(sets)
}

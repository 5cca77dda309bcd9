//! Laws of sets of free numbers: what the calls do to the increasing list of the free numbers.

ghost use Rattle.std.specs.Prelude.{Some, IfSome, ◌≡◌, ◌+◌, ◌-◌, ◌/◌, ◌≤◌, ◌<◌, ◌++◌, ◌∷◌, ◌↔◌, [], false, true, length, MatchOption};
ghost use Rattle.std.specs.List.{Contains};
ghost use Rattle.std.specs.List.Sorted.{IsStrictlyIncreasing};
ghost use Rattle.bp_free.specs.Looks.{looks};
ghost use Rattle.bp_free.specs.Set.{has, members, below, members_above};

use crate::{Kind, Numbers, Steps};
use std::sync::ledger::Ledger;

/// States that `take` returns the first number of the list and leaves the rest of the list.
#[tactic(auto, using(crate::proofs::Members::members_least))]
pub fn takes_the_first<K: Kind>(free: &mut Numbers<K>) -> Option<u32>
    ensures { MatchOption result ((members free.old ≡ []) × (members free.new ≡ []))
        (λ i. members free.old ≡ i ∷ members free.new) }
{
    free.take()
}

/// States that the search for the second of two least numbers begins at the word of bits that has the first one's word:
/// it looks at no word of bits before it.
pub fn searches_on<K: Kind, L: Ledger>(
    free: &mut Numbers<K>,
    steps: &mut Steps<L>,
) -> (Option<u32>, Option<u32>)
    ensures { IfSome result.0 (λ i. IfSome result.1 (λ j. steps.new ≤ steps.old + looks (Some i) +
        (j / 4096 - i / 4096) + 2)) }
{
    free.take_two(steps)
}

/// States that `give` inserts its number between the lower and the higher ones.
#[tactic(auto, using(crate::proofs::Members::members_out, crate::proofs::Members::members_with))]
pub fn gives_one<K: Kind>(free: &mut Numbers<K>, i: u32)
    requires in_range { i < length free.old }
    requires taken { has free.old i ≡ false }
    ensures before { members free.old ≡ below free.old i ++ members_above free.old i }
    ensures after { members free.new ≡ below free.old i ++ i ∷ members_above free.old i }
{
    free.give(i);
}

/// States that `claim` removes its number from between the lower and the higher ones.
#[tactic(auto, using(crate::proofs::Members::members_in, crate::proofs::Members::members_without))]
pub fn claims_one<K: Kind>(free: &mut Numbers<K>, i: u32)
    requires in_range { i < length free.old }
    requires free { has free.old i ≡ true }
    ensures before { members free.old ≡ below free.old i ++ i ∷ members_above free.old i }
    ensures after { members free.new ≡ below free.old i ++ members_above free.old i }
{
    free.claim(i);
}

/// States that the list is increasing and has exactly the free numbers.
#[tactic(auto, using(crate::proofs::Members::members_rise, crate::proofs::Members::members_report))]
pub fn lists_the_free<K: Kind>(free: &Numbers<K>, i: u32)
    requires { i < length free.now }
    ensures rising { IsStrictlyIncreasing (members free.now) }
    ensures reports { Contains (members free.now) i ↔ (has free.now i ≡ true) }
{}

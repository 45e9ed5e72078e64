// Sets of sites: a set is a u64 whose bit t says whether site t is in it. Every function takes any set and any site
// number; no site from 64 on is in a set. specs/Sets.antt has the definitions.
#![tactic(auto)]

ghost use Rattle.std.specs.Prelude.{◌≡◌, cond, ltb, eqb};
ghost use Rattle.base.specs.Sizes.{set_bits};
ghost use Rattle.sets.specs.Sets as spec;

// Whether site t is in the set.
pub fn member(set: u64, t: usize) -> bool
    ensures { result ≡ spec.has t set }
{
    if t < base::SET {
        (set >> t) % 2 == 1
    } else {
        false
    }
}

// The set {t}; from 64 on the empty set.
pub fn only(t: usize) -> u64
    ensures { result ≡ cond (ltb t set_bits) (spec.only t) 0 }
{
    if t < base::SET { 1u64 << t } else { 0 }
}

// The set with t; from 64 on the set itself.
pub fn with(set: u64, t: usize) -> u64
    ensures { result ≡ cond (ltb t set_bits) (spec.plus t set) set }
{
    if member(set, t) { set } else { set + only(t) }
}

// The set without t.
pub fn without(set: u64, t: usize) -> u64
    ensures { result ≡ spec.minus t set }
{
    if member(set, t) { set - only(t) } else { set }
}

// How many sites are in the set.
pub fn size(set: u64) -> usize
    ensures { result ≡ spec.size set }
{
    u64::count_ones(set) as usize
}

// Whether exactly one site is in the set.
pub fn is_single(set: u64) -> bool
    ensures { result ≡ eqb (spec.size set) 1 }
{
    size(set) == 1
}

// The lowest site in the set; 64 for the empty set.
pub fn lowest(set: u64) -> usize
    ensures { result ≡ spec.lowest set }
{
    u64::trailing_zeros(set) as usize
}

// Whether every site in the set is below `sites`.
pub fn within(set: u64, sites: usize) -> bool
    ensures { result ≡ spec.within sites set }
{
    if sites < base::SET {
        set >> sites == 0
    } else {
        true
    }
}

// Whether the set is a target set: not empty, and every site in it below `sites`.
pub fn is_targets(set: u64, sites: usize) -> bool
    ensures { result ≡ spec.targets sites set }
{
    (set != 0) & within(set, sites)
}

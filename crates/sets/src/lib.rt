// Sets of numbers below 32 (units, or groups) as one u32, whose bit u says whether u is in the set. Every function is total: a number from
// 32 on is in no set.
#![tactic(auto)]

ghost use Rattle.std.specs.Prelude.{◌≡◌, ℕ, ◌<◌, Bool};
ghost use Rattle.std.specs.Iterator.{at_most};
ghost use Rattle.sets.specs.Sets.{member as isMember, union as unionOf, intersection as intersectionOf};
ghost use Rattle.sets.specs.Sets.{difference as differenceOf, including as includingOf, excluding as excludingOf};
ghost use Rattle.sets.specs.Sets.{single as singleOf, size as size_of, lowest as lowestOf, including_if, below as belowOf};
ghost use Rattle.sets.specs.Sets.{collect as collectOf, TakesLowest};

// Whether u is a member of s. The bit stays at its place: shifted out of each group of a table, it costs a multiplication to go elsewhere.
#[tactic(auto, using(crate::proofs::Laws::shares_single))]
pub fn member(s: u32, u: usize) -> bool
    ensures { result ≡ isMember s u }
{
    intersection(s, single(u)) != 0
}

// The set of u alone.
pub fn single(u: usize) -> u32
    ensures { result ≡ singleOf u }
{
    if u < 32 { 1 << u } else { 0 }
}

// The members of s or of t.
pub fn union(s: u32, t: u32) -> u32
    ensures { result ≡ unionOf s t }
{
    s | t
}

// The members of s and of t.
pub fn intersection(s: u32, t: u32) -> u32
    ensures { result ≡ intersectionOf s t }
{
    s & t
}

// The members of s that are no members of t.
pub fn difference(s: u32, t: u32) -> u32
    ensures { result ≡ differenceOf s t }
{
    s - (s & t)
}

// s with u.
pub fn including(s: u32, u: usize) -> u32
    ensures { result ≡ includingOf s u }
{
    union(s, single(u))
}

// s without u.
pub fn excluding(s: u32, u: usize) -> u32
    ensures { result ≡ excludingOf s u }
{
    difference(s, single(u))
}

// s with u where the test says so.
#[tactic(auto, unfolding(crate::specs::Sets::including_if))]
pub fn including_if(s: u32, u: usize, test: bool) -> u32
    ensures { result ≡ including_if s u test }
{
    if test { including(s, u) } else { s }
}

// The numbers below n that pass the test, as far as a set holds them.
pub fn collect<F: Fn(usize) -> bool>(n: usize, test: F) -> u32
    requires { (i : ℕ) → i < n → F.pre test i }
    ensures { (t : ℕ → Bool) → ((i : ℕ) (b : Bool) → i < n → F.post test i b → b ≡ t i) → result ≡ collectOf n t }
{
    let mut set: u32 = 0;
    for i in 0..n {
        set = including_if(set, i, test(i));
    }
    set
}

// The numbers below n, as far as a set holds them.
#[tactic(auto, using(crate::proofs::Laws::below_full, crate::proofs::Laws::below_shift))]
pub fn below(n: usize) -> u32
    ensures { result ≡ belowOf n }
{
    if n < 32 { (1 << n) - 1 } else { 4294967295 }
}

// How many members s has.
pub fn size(s: u32) -> u32
    ensures { result ≡ size_of s }
{
    u32::count_ones(s)
}

// The lowest member of s; 32 where s is empty.
pub fn lowest(s: u32) -> usize
    ensures { result ≡ lowestOf s }
{
    u32::trailing_zeros(s) as usize
}

// The members of a set, the lowest first: what is left of the set.
#[derive(Drop)]
pub struct Iter {
    left: u32,
}

// The members of s, the lowest first.
pub fn members(s: u32) -> Iter
    ensures { result.left ≡ s }
{
    Iter { left: s }
}

impl Iterator for Iter {
    type Item = usize;

    ghost next_gives = { λ s item t. TakesLowest s.left item t.left };

    ghost remaining = { λ s. at_most (size_of s.left) };

    fn next(&mut self) -> Option<usize> {
        if self.left == 0 {
            return None;
        }
        let least = lowest(self.left);
        self.left = excluding(self.left, least);
        Some(least)
    }
}

// Sets of rules as 64-bit masks: rule i is in the set exactly if bit i of the mask is 1 (document 01, "bit i for rule i"). Sets of nodes as eight such words.
//
// What a caller may rely on, and nothing else:
// - `has_rule` tests one rule's bit, `add_rule` sets it. Of what it returns the contract says for every j whether bit j is set, and that no bit
//   is lost, so that a mask which grows is a number which grows: a loop that adds rules until nothing changes ends.
// - `apart` tells whether two sets have no rule in common.
// - `count` is how many rules the set has, and `lowest` its lowest rule, 64 if it is empty.
// - `marked` tests one node's mark and `mark` sets it; the other marks stay.
// - `low_half` and `high_half` split a mask into two 32-bit words, `from_halves` puts it together again: lent working numbers have 32 bits.
//
// specs/Mask says what these words mean of a number, specs/Marks of a list of words. proofs/Laws has the laws for callers: masks with the same bits are equal (`same_mask`),
// a mask with the bits of a list of marks is that list's number (`is_mask_of`), 0 has no rule (`has_none`) and no other mask has none (`no_rule_lem`), and the halves of a mask give it back (`halves`).
#![tactic(auto)]

ghost use Rattle.std.specs.Prelude.{◌≡◌, true, ◌↔◌, ℕ, ◌+◌, ◌*◌, ◌/◌, ◌%◌, ◌^◌, ◌<◌, length};
ghost use Rattle.bits.specs.Mask.{has, Added, Apart, how_many, least};
ghost use Rattle.bits.specs.Marks.{marked, WithMark};

#[tactic(auto, using(crate::proofs::Digits::has_test))]
pub fn has_rule(mask: u64, rule: usize) -> bool
    requires { rule < 64 }
    ensures { result ≡ has mask rule }
{
    mask & (1u64 << rule) != 0
}

#[tactic(auto, using(crate::proofs::Digits::added))]
pub fn add_rule(mask: u64, rule: usize) -> u64
    requires { rule < 64 }
    ensures { Added mask rule result }
{
    mask | (1u64 << rule)
}

// Whether no rule is in both sets.
#[tactic(auto, using(crate::proofs::Laws::apart_iff))]
pub fn apart(a: u64, b: u64) -> bool
    ensures { (result ≡ true) ↔ Apart a b }
{
    a & b == 0
}

// How many rules the set has.
#[tactic(auto, using(crate::proofs::Digits::counted))]
pub fn count(mask: u64) -> u32
    ensures { result ≡ how_many (has mask) 64 }
{
    u64::count_ones(mask)
}

// The lowest rule of the set, 64 if there is none.
#[tactic(auto, using(crate::proofs::Digits::lowest_is))]
pub fn lowest(mask: u64) -> u32
    ensures { result ≡ least (has mask) 64 }
{
    u64::trailing_zeros(mask)
}

// Rules 0 to 31 of the set, in a word.
pub fn low_half(mask: u64) -> u32
    ensures { result ≡ mask % 2 ^ 32 }
{
    (mask & 0xffff_ffff) as u32
}

// Rules 32 to 63 of the set, in a word.
pub fn high_half(mask: u64) -> u32
    ensures { result ≡ mask / 2 ^ 32 }
{
    (mask >> 32) as u32
}

pub fn from_halves(low: u32, high: u32) -> u64
    ensures { result ≡ high * 2 ^ 32 + low }
{
    u64::from(low) | u64::from(high) << 32
}

// ---- Sets of nodes: as many words as 512 nodes take.

pub const WORDS: usize = 8;

#[tactic(auto, unfolding(crate::specs::Marks::marked))]
pub fn marked(marks: &[u64; WORDS], node: usize) -> bool
    requires { node < 512 }
    ensures { result ≡ marked marks.now node }
{
    has_rule(marks[node / 64], node % 64)
}

pub fn mark(marks: &mut [u64; WORDS], node: usize)
    requires { (node < 512) × (length marks.old ≡ 8) }
    ensures { WithMark marks.old node marks.new }
{
    let word = node / 64;
    marks[word] = add_rule(marks[word], node % 64);
}

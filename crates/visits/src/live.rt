// The live uses: three words each, in the order of their positions.
ghost use Rattle.std.specs.Prelude.{◌≡◌, [], ◌∷◌, ◌+◌, ◌*◌, ◌<◌, ◌≤◌, length};
ghost use Rattle.std.proofs.lemmas.List.Edits.{sets};
ghost use Rattle.visits.specs.Given.{numbers, lent, longest_line, live_in, pos_in};
ghost use Rattle.visits.specs.Words.{Rising, Found, FoundUse};
ghost use Rattle.visits.specs.Says.{found_in, Holds};

use crate::spot::{live_of, pos_of};
use crate::{FAILED, Given, RULES, answer};

// A live use is three words: its pair, and the end and the list of what it holds.
pub(crate) fn put_use(work: &mut [u32], live: u32, key: u32, end: u32, list: u32)
    requires { (live * 3 + 2 < length work.old) × (live ≤ 512) }
    ensures { work.new ≡ sets work.old (live * 3) (key ∷ end ∷ list ∷ []) }
{
    let at = live as usize * 3;
    work[at] = key;
    work[at + 1] = end;
    work[at + 2] = list;
}

// The live use of a pair, if it is live; at most one can fit. The search runs from the newest, and no further than one of an earlier position.
// (It counts by hand: as a `for` over a range turned round each entry took 9 instructions instead of 8, and a line of 95 bytes by the sum sheet 205,352 instead of 205,101.)
fn find_use(work: &mut &mut [u32], live: u32, key: u32) -> Option<u32>
    requires few { (live * 3 ≤ length work.old.now) × (live ≤ 513) }
    requires order { Rising work.old.now live }
    ensures { Found work.old.now live key (found_in result) × (work.new ≡ work.old) }
{
    if live == 0 {
        return None;
    }
    let lowest = key - key % RULES;
    let mut i = live as usize - 1;
    while work[i * 3] != key {
        if work[i * 3] < lowest {
            return None;
        }
        if i == 0 {
            return None;
        }
        i -= 1;
    }
    Some(i as u32)
}

// The live use of a rule here, if there is one: a rule that doesn't grow has none.
pub(crate) fn live_use(given: &Given, work: &mut &mut [u32], spot: u64, rule: u32) -> Option<u32>
    requires few { (live_in spot * 3 ≤ length work.old.now) × ((live_in spot ≤ 513) × ((rule < 64) × (pos_in spot ≤ longest_line))) }
    requires order { Rising work.old.now (live_in spot) }
    ensures { FoundUse (lent [] (numbers given.now)) work.old.now spot rule (found_in result) × (work.new ≡ work.old) }
{
    if !bits::has_rule(given.growing, rule as usize) {
        return None;
    }
    find_use(work, live_of(spot), pos_of(spot) * RULES + rule)
}

// What a live use holds, as an answer: list 0 is a failure.
pub(crate) fn held_by(work: &mut &mut [u32], live: u32) -> u64
    requires { (live * 3 + 2 < length work.old.now) × (live ≤ 512) }
    ensures { Holds work.old.now live result × (work.new ≡ work.old) }
{
    let at = live as usize * 3;
    let list = work[at + 2];
    if list == 0 {
        return answer(FAILED, 0);
    }
    let end = work[at + 1];
    answer(end, list)
}

// The kept answers: two words for each pair of a node and a position, those of one position together.
ghost use Rattle.std.specs.Prelude.{◌≡◌, [], ◌∷◌, ◌+◌, ◌<◌, ◌≤◌, length, get_or};
ghost use Rattle.std.proofs.lemmas.List.Edits.{sets};
ghost use Rattle.visits.specs.Given.{numbers, lent};
ghost use Rattle.visits.specs.Words.{FAILED, place_in, HasPair, Roomy, Kept};
ghost use Rattle.visits.specs.Says.{KeptIn};

use crate::{CELLS, FAILED, Given, STOPPED, answer};

// Where the answer of a pair is kept.
fn kept_at(given: &Given, node: u32, pos: u32) -> usize
    requires { HasPair (lent [] (numbers given.now)) node pos }
    ensures { result ≡ place_in (lent [] (numbers given.now)) node pos }
{
    let pair = pos as usize * given.kept_each as usize + node as usize;
    CELLS + 4 * given.allowance as usize + pair * 2
}

// The answer that is kept for a pair, if one is: its word is 0 where none is, 1 for a failure, else 2 more than where it ends.
pub(crate) fn kept_answer(given: &Given, work: &mut &mut [u32], node: u32, pos: u32) -> Option<u64>
    requires { Roomy (lent [] (numbers given.now)) work.old.now node pos }
    ensures { KeptIn (lent [] (numbers given.now)) work.old.now node pos result × (work.new ≡ work.old) }
{
    let at = kept_at(given, node, pos);
    match work[at] {
        0 => None,
        1 => Some(answer(FAILED, 0)),
        word => Some(answer(word - 2, work[at + 1])),
    }
}

// Keeps the answer of a finished pair; one that was refused has none.
pub(crate) fn keep(given: &Given, work: &mut [u32], node: u32, pos: u32, end: u32, list: u32)
    requires { Roomy (lent [] (numbers given.now)) work.old node pos × (end ≤ FAILED) }
    ensures { Kept (lent [] (numbers given.now)) work.old work.new node pos end list }
{
    if end == STOPPED {
        return;
    }
    let at = kept_at(given, node, pos);
    if end == FAILED {
        put_kept(work, at, 1, 0);
        return;
    }
    put_kept(work, at, end + 2, list);
}

fn put_kept(work: &mut [u32], at: usize, word: u32, list: u32)
    requires { at + 1 < length work.old }
    ensures { work.new ≡ sets work.old at (word ∷ list ∷ []) }
{
    work[at] = word;
    work[at + 1] = list;
}

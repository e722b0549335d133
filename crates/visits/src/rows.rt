// Rows: a repetition's next visit of itself takes the place of the one before.
// Where answers are kept, the turns of a row wait for its end: where each was made, and the list of its child's trees. Two words each, the newest lowest, from the far
// end of the cells down. (Each turn makes a visit that needs no cell, so there is room.)
ghost use Rattle.std.specs.Prelude.{◌≡◌, [], ◌≤◌, length, set};
ghost use Rattle.visits.specs.Given.{numbers, lent, most_allowance, allowance_in};
ghost use Rattle.visits.specs.Words.{turns_word, turn_at, turn_pos, turn_list, with_turn, HasTurn, code_in, EnteredInPlace};
ghost use Rattle.visits.specs.Says.{end_in, list_in, Returns, Returned};

use crate::kept::keep;
use crate::spot::pos_of;
use crate::trees::joined;
use crate::{Basis, CELLS, Given, MADE, Refusal, TURNS, answer, end_of, list_of, unspent};

// Enters a visit that takes the place of the one before, so that no more are open: it is refused for effort, or counted.
pub(crate) fn enter_in_place(given: &Given, work: &mut &mut [u32]) -> Result<(), Refusal>
    requires { (2048 ≤ length work.old.now) × (allowance_in (lent [] (numbers given.now)) ≤ most_allowance) }
    ensures says { EnteredInPlace (lent [] (numbers given.now)) work.old.now work.new.now (code_in result) }
    ensures lent { work.new.ghost_name ≡ work.old.ghost_name }
{
    let made = unspent(given, work)?;
    work[MADE] = made + 1;
    Ok(())
}

// Where turn number n stands.
fn turn_at(given: &Given, turn: u32) -> usize
    requires { (allowance_in (lent [] (numbers given.now)) ≤ most_allowance) × (turn ≤ allowance_in (lent [] (numbers given.now))) }
    ensures { result ≡ turn_at (lent [] (numbers given.now)) turn }
{
    CELLS + 4 * given.allowance as usize - 2 * turn as usize
}

// One turn more waits, as turn number n.
pub(crate) fn put_turn(given: &Given, work: &mut [u32], turn: u32, pos: u32, list: u32)
    requires { HasTurn (lent [] (numbers given.now)) work.old turn }
    ensures { work.new ≡ with_turn (lent [] (numbers given.now)) work.old turn pos list }
{
    let at = turn_at(given, turn);
    work[at] = pos;
    work[at + 1] = list;
    work[TURNS] = turn;
}

// Turn number n, as its position and its list.
fn turn_of(given: &Given, work: &mut [u32], turn: u32) -> u64
    requires { HasTurn (lent [] (numbers given.now)) work.old turn }
    ensures turn { (end_in result ≡ turn_pos (lent [] (numbers given.now)) work.old turn) × (list_in result ≡ turn_list (lent [] (numbers given.now)) work.old turn) }
    ensures words { work.new ≡ work.old }
{
    let at = turn_at(given, turn);
    let pos = work[at];
    let list = work[at + 1];
    answer(pos, list)
}

// So many turns wait.
pub(crate) fn set_turns(work: &mut [u32], turns: u32)
    requires { 2048 ≤ length work.old }
    ensures { work.new ≡ set work.old turns_word turns }
{
    work[TURNS] = turns;
}

// Goes back over a row from where its last turn was made, by what that one answers: each pair's answer is kept, and the trees of the turn before are joined to it,
// until no more turns wait than waited before the row. Answers what the first turn does.
pub(crate) fn go_back(
    basis: &Basis,
    work: &mut &mut [u32],
    spot: u64,
    node: u32,
    before: u32,
    last: u64,
) -> u64
    requires { Returns (lent basis.now.table.now (numbers basis.now.given)) basis.now.line.now work.old.now spot node before last }
    ensures says { Returned (lent basis.now.table.now (numbers basis.now.given)) basis.now.line.now work.old.now work.new.now spot node before last result }
    ensures lent { work.new.ghost_name ≡ work.old.ghost_name }
{
    let mut at = pos_of(spot);
    let mut done = last;
    for waiting in (before..work[TURNS]).rev() {
        keep(&basis.given, *work, node, at, end_of(done), list_of(done));
        let turn = turn_of(&basis.given, *work, waiting + 1);
        done = joined(*work, end_of(done), list_of(turn), list_of(done));
        at = end_of(turn);
    }
    set_turns(*work, before);
    done
}

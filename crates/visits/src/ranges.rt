// A visit of a range: one byte, and how far the reading has looked.
ghost use Rattle.std.specs.Prelude.{◌≡◌, ◌≤◌, length};
ghost use Rattle.meaning.specs.Grammar.{fits};
ghost use Rattle.meaning.specs.Reading.{byte};
ghost use Rattle.visits.specs.Given.{numbers, lent, longest_line, HasNode};
ghost use Rattle.visits.specs.Words.{reached_in};
ghost use Rattle.visits.specs.Says.{end_of, ended, Ranges};

use crate::fields::{a_of, b_of};
use crate::{FAILED, FURTHEST, Given, answer};

// Where a byte in a range ends at a position, if it is one.
fn range_end(line: &[u8], lowest: u32, highest: u32, pos: u32) -> Option<u32>
    requires { (pos ≤ length line.now) × (length line.now ≤ longest_line) }
    ensures { ended result ≡ end_of (byte pos (fits line.now lowest highest pos)) }
{
    let found = u32::from(*line.get(pos as usize)?);
    if lowest <= found && found <= highest {
        return Some(pos + 1);
    }
    None
}

// A range is visited at a position: the furthest one is written only where it rises.
fn reach(work: &mut &mut [u32], pos: u32)
    requires { 2048 ≤ length work.old.now }
    ensures reached { work.new.now ≡ reached_in work.old.now pos }
    ensures lent { work.new.ghost_name ≡ work.old.ghost_name }
{
    if work[FURTHEST] < pos {
        work[FURTHEST] = pos;
    }
}

// A range: one byte, and no trees. (Its fields are read before a word is written, so that the compiler need not find the node again.)
pub(crate) fn visit_range(
    given: &Given,
    table: &[u8],
    line: &[u8],
    work: &mut &mut [u32],
    pos: u32,
    node: u32,
) -> u64
    requires node { HasNode (lent table.now (numbers given.now)) node }
    requires inside { (pos ≤ length line.now) × (length line.now ≤ longest_line) }
    requires words { 2048 ≤ length work.old.now }
    ensures range { Ranges (lent table.now (numbers given.now)) line.now node pos result }
    ensures reached { work.new.now ≡ reached_in work.old.now pos }
    ensures lent { work.new.ghost_name ≡ work.old.ghost_name }
{
    let lowest = a_of(given, table, node);
    let highest = b_of(given, table, node);
    reach(work, pos);
    match range_end(line, lowest, highest, pos) {
        Some(end) => answer(end, 0),
        None => answer(FAILED, 0),
    }
}

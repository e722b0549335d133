// Visits: the reading of a line over lent working numbers, visit by visit, as 01's "How a line is read" has it.
//
// A visit goes by the four numbers given (see specs/Given), the table and the line (Basis), is lent the working numbers, and is told where it stands in one number
// (spot: the position, the live uses, the open visits left). What it answers is one number too: where it ends (or FAILED, or STOPPED by a
// refusal) in the lower half, the list of its trees (or the refusal) in the upper.
// specs/Words says what the working numbers stand for: the live uses (three words each from word 0 on, in the order of their positions), the number of turns that wait, of cells in
// use and of visits made and the furthest position at which a range was visited (words 2041 to 2044), the cells of trees, the turns of rows that wait for their row's end
// (two words each, from the far end of the cells down), and the kept answers (two words for each pair of a node and a position).
// The promise of each function (specs/Says): from words that stand for live uses and a state, the answer and the words it leaves say how the
// reading of crate meaning ends from there: the answer with its trees, the state handed on, or the refusal with its place.
// The visit calls itself for children and roots; the open visits left is the number that falls. It passes references to the slices, not the
// slices, so that a call costs no copy of them; so each function says too that the working numbers it was lent are the ones that it gives back.
// A repetition's next visit of itself takes the place of the one before: a row of them is a loop, and takes the stack of one visit.
// What a visit is made of stands in files of its own: fields (what the table has for a node), spot (where a visit stands), ranges, live (the live uses),
// trees, kept (the kept answers), rows (the turns that wait). Here are the answer in one number, the counters, and the functions that call one another.
#![tactic(auto)]

mod fields;
mod kept;
mod live;
mod ranges;
mod rows;
mod spot;
mod trees;

ghost use Rattle.std.specs.Prelude.{◌≡◌, true, false, [], ◌∷◌, ◌+◌, ◌*◌, ◌<◌, ◌≤◌, length};
ghost use Rattle.std.proofs.lemmas.List.Edits.{sets};
ghost use Rattle.visits.specs.Given.{numbers, lent, most_allowance, allowance_in, nodes_in, rules_in, keeps_in, grows_in, kind_in, HasRule, IsPair, IsOpen, beginning, live_in, pos_in};
ghost use Rattle.visits.specs.Words.{key_of, turns_word, made_in, furthest_in, NotLive, code_of, code_in, Unspent, Entered};
ghost use Rattle.visits.specs.Says.{STOPPED, reading, uses, grows, applies, opens, here, sequencing, choosing, denying, rooting, end_in, list_in, StartsHere, StartsUse, Unkept, Does, DoesVisit};

use crate::fields::{a_of, b_of, kind_of, root_of};
use crate::kept::{keep, kept_answer};
use crate::live::{held_by, live_use, put_use};
use crate::ranges::visit_range;
use crate::rows::{enter_in_place, go_back, put_turn, set_turns};
use crate::spot::{left_of, live_of, moved, pos_of};
use crate::trees::{joined, planted};

// The ends that are no position.
pub const FAILED: u32 = 65535;

pub const STOPPED: u32 = 65534;

// A refusal is one number: its code times this, and its place.
pub const PLACES: u32 = 4096;

// Why a visit is refused.
#[derive(Clone, Copy, Debug, PartialEq, Eq)]
pub(crate) enum Refusal {
    Effort,
    Deep,
}

impl Refusal {
    // 01's code of it.
    fn code(self) -> u32
        ensures { result ≡ code_of self }
    {
        match self {
            Refusal::Effort => 11,
            Refusal::Deep => 12,
        }
    }
}

// What a reading is given beside the table and the line: the allowance, how many answers are kept for each position, where the nodes start, and the rules that grow.
#[derive(Clone, Copy)]
pub struct Given {
    pub allowance: u64,
    pub kept_each: u64,
    pub first_node: u64,
    pub growing: u64,
}

// What every visit of a reading goes by: what is given, the table and the line.
#[derive(Clone, Copy)]
pub(crate) struct Basis<'a> {
    given: Given,
    table: &'a [u8],
    line: &'a [u8],
}

// The working numbers that hold how many turns wait, how many cells are in use, how many visits are made and the furthest position at which a range was
// visited, and the first of the cells.
const TURNS: usize = 2041;

const TOP: usize = 2042;

const MADE: usize = 2043;

const FURTHEST: usize = 2044;

const CELLS: usize = 2048;

// What stands in the upper half of an answer, or of where a visit stands, is so many times as much.
const UPPER: u64 = 4294967296;

// What one open visit takes from where a visit stands, and one live use adds to it.
const OPEN: u64 = 1;

const LIVE: u64 = 1024;

// Where the reading begins: at position 0 with nothing live, and 512 visits may be open.
const BEGINNING: u64 = 512;

// A pair of a rule and a position is one number: the position times this, and the rule.
const RULES: u32 = 64;

// An answer by where it ends and its list. (It is one number: as an enum it comes back through memory, and a line of 95 bytes by the sum sheet took 253,460
// instructions instead of 205,101; as a struct of the two it comes back in two registers, and 60 sums took 3,697,324 instead of 3,694,702.)
fn answer(end: u32, list: u32) -> u64
    ensures { (end_in result ≡ end) × (list_in result ≡ list) }
{
    list as u64 * UPPER + end as u64
}

// The answer of a visit that is refused at a place.
fn stopped(refusal: Refusal, place: u32) -> u64
    requires { place < 4096 }
    ensures { (end_in result ≡ STOPPED) × (list_in result ≡ code_of refusal * 4096 + place) }
{
    answer(STOPPED, refusal.code() * PLACES + place)
}

pub fn end_of(answer: u64) -> u32
    ensures { result ≡ end_in answer }
{
    (answer % UPPER) as u32
}

pub fn list_of(answer: u64) -> u32
    ensures { result ≡ list_in answer }
{
    (answer / UPPER) as u32
}

// Makes ready for the first visit: no turn waits, no cell is in use, no visit is made, no range was visited.
pub fn no_visits(work: &mut [u32])
    requires { 2048 ≤ length work.old }
    ensures { work.new ≡ sets work.old turns_word (0 ∷ 0 ∷ 0 ∷ 0 ∷ []) }
{
    work[TURNS] = 0;
    work[TOP] = 0;
    work[MADE] = 0;
    work[FURTHEST] = 0;
}

pub fn visits_made(work: &[u32]) -> u32
    requires { 2048 ≤ length work.now }
    ensures { result ≡ made_in work.now }
{
    work[MADE]
}

pub fn furthest_visited(work: &[u32]) -> u32
    requires { 2048 ≤ length work.now }
    ensures { result ≡ furthest_in work.now }
{
    work[FURTHEST]
}

// How many visits are made, where the allowance is not spent.
pub(crate) fn unspent(given: &Given, work: &mut &mut [u32]) -> Result<u32, Refusal>
    requires { (2048 ≤ length work.old.now) × (allowance_in (lent [] (numbers given.now)) ≤ most_allowance) }
    ensures { Unspent (lent [] (numbers given.now)) work.old.now result × (work.new ≡ work.old) }
{
    let made = work[MADE];
    if given.allowance as u32 <= made {
        return Err(Refusal::Effort);
    }
    Ok(made)
}

// Enters a visit: it is refused, for effort before depth, or counted.
fn enter(given: &Given, work: &mut &mut [u32], spot: u64) -> Result<(), Refusal>
    requires { (2048 ≤ length work.old.now) × (allowance_in (lent [] (numbers given.now)) ≤ most_allowance) }
    ensures says { Entered (lent [] (numbers given.now)) work.old.now work.new.now spot (code_in result) }
    ensures lent { work.new.ghost_name ≡ work.old.ghost_name }
{
    let made = unspent(given, work)?;
    if left_of(spot) == 0 {
        return Err(Refusal::Deep);
    }
    work[MADE] = made + 1;
    Ok(())
}

#[cycle(visiting)]
fn visit_sequence(basis: &Basis, work: &mut &mut [u32], spot: u64, x: u32, y: u32) -> u64
    requires ready { StartsHere (lent basis.now.table.now (numbers basis.now.given)) basis.now.line.now work.old.now spot x }
    requires open { IsOpen spot × (y < nodes_in (lent basis.now.table.now (numbers basis.now.given))) }
    ensures says { Does (lent basis.now.table.now (numbers basis.now.given)) basis.now.line.now work.old.now work.new.now spot result (sequencing x y) }
    ensures lent { work.new.ghost_name ≡ work.old.ghost_name }
{
    let a = visit(basis, work, spot, x);
    let end = end_of(a);
    if STOPPED <= end {
        return a;
    }
    let b = visit(basis, work, moved(spot, end), y);
    let last = end_of(b);
    if STOPPED <= last {
        return b;
    }
    joined(*work, last, list_of(a), list_of(b))
}

#[cycle(visiting)]
fn visit_choice(basis: &Basis, work: &mut &mut [u32], spot: u64, x: u32, y: u32) -> u64
    requires ready { StartsHere (lent basis.now.table.now (numbers basis.now.given)) basis.now.line.now work.old.now spot x }
    requires open { IsOpen spot × (y < nodes_in (lent basis.now.table.now (numbers basis.now.given))) }
    ensures says { Does (lent basis.now.table.now (numbers basis.now.given)) basis.now.line.now work.old.now work.new.now spot result (choosing x y) }
    ensures lent { work.new.ghost_name ≡ work.old.ghost_name }
{
    let a = visit(basis, work, spot, x);
    let end = end_of(a);
    if end != FAILED {
        return a;
    }
    visit(basis, work, spot, y)
}

#[cycle(visiting)]
fn visit_not(basis: &Basis, work: &mut &mut [u32], spot: u64, x: u32) -> u64
    requires ready { StartsHere (lent basis.now.table.now (numbers basis.now.given)) basis.now.line.now work.old.now spot x }
    requires open { IsOpen spot }
    ensures says { Does (lent basis.now.table.now (numbers basis.now.given)) basis.now.line.now work.old.now work.new.now spot result (denying x) }
    ensures lent { work.new.ghost_name ≡ work.old.ghost_name }
{
    let a = visit(basis, work, spot, x);
    let end = end_of(a);
    if end == STOPPED {
        return a;
    }
    if end == FAILED {
        return answer(pos_of(spot), 0);
    }
    answer(FAILED, 0)
}

// A repetition where nothing is kept: its child, turn by turn, and the trees are joined as they come.
// (Two ways out that answer alike stand apart, here, in `keep_row` and in `use_live`: joined by `||` a line of 95 bytes by the sum sheet took 206,015 instructions
// instead of 205,915.)
#[cycle(visiting)]
fn visit_row(basis: &Basis, work: &mut &mut [u32], spot: u64, node: u32) -> u64
    requires ready { StartsHere (lent basis.now.table.now (numbers basis.now.given)) basis.now.line.now work.old.now spot node }
    requires open { IsOpen spot × (kind_in (lent basis.now.table.now (numbers basis.now.given)) node ≡ 6) }
    requires plain { keeps_in (lent basis.now.table.now (numbers basis.now.given)) ≡ false }
    ensures says { Does (lent basis.now.table.now (numbers basis.now.given)) basis.now.line.now work.old.now work.new.now spot result (here applies node) }
    ensures lent { work.new.ghost_name ≡ work.old.ghost_name }
{
    let x = a_of(&basis.given, basis.table, node);
    let mut here = spot;
    let mut list = 0;
    let last = loop {
        let turn = visit(basis, work, here, x);
        let end = end_of(turn);
        if end == STOPPED {
            break turn;
        }
        if end == FAILED {
            break answer(pos_of(here), list);
        }
        if end == pos_of(here) {
            break answer(end, list);
        }
        let both = joined(*work, end, list, list_of(turn));
        if let Err(refusal) = enter_in_place(&basis.given, work) {
            break stopped(refusal, end);
        }
        list = list_of(both);
        here = moved(here, end);
    };
    last
}

// A repetition where answers are kept: each turn waits until the row ends, and then the row is gone back over, to keep the answer of each pair.
#[cycle(visiting)]
fn keep_row(basis: &Basis, work: &mut &mut [u32], spot: u64, node: u32) -> u64
    requires ready { StartsHere (lent basis.now.table.now (numbers basis.now.given)) basis.now.line.now work.old.now spot node }
    requires open { IsOpen spot × (kind_in (lent basis.now.table.now (numbers basis.now.given)) node ≡ 6) }
    requires free { keeps_in (lent basis.now.table.now (numbers basis.now.given)) ≡ true }
    ensures says { Does (lent basis.now.table.now (numbers basis.now.given)) basis.now.line.now work.old.now work.new.now spot result (here applies node) }
    ensures lent { work.new.ghost_name ≡ work.old.ghost_name }
{
    let x = a_of(&basis.given, basis.table, node);
    let before = work[TURNS];
    let mut here = spot;
    let last = loop {
        let a = visit(basis, work, here, x);
        let end = end_of(a);
        if end == STOPPED {
            set_turns(*work, before);
            break a;
        }
        if end == FAILED {
            break go_back(basis, work, here, node, before, answer(pos_of(here), 0));
        }
        if end == pos_of(here) {
            break go_back(basis, work, here, node, before, answer(pos_of(here), 0));
        }
        if let Err(refusal) = enter_in_place(&basis.given, work) {
            set_turns(*work, before);
            break stopped(refusal, end);
        }
        if let Some(rest) = kept_answer(&basis.given, work, node, end) {
            let both = joined(*work, end_of(rest), list_of(a), list_of(rest));
            break go_back(basis, work, here, node, before, both);
        }
        let turns = work[TURNS] + 1;
        put_turn(&basis.given, *work, turns, pos_of(here), list_of(a));
        here = moved(here, end);
    };
    last
}

// A repetition: its child, then itself.
#[cycle(visiting)]
fn visit_repetition(basis: &Basis, work: &mut &mut [u32], spot: u64, node: u32) -> u64
    requires ready { StartsHere (lent basis.now.table.now (numbers basis.now.given)) basis.now.line.now work.old.now spot node }
    requires open { IsOpen spot × (kind_in (lent basis.now.table.now (numbers basis.now.given)) node ≡ 6) }
    ensures says { Does (lent basis.now.table.now (numbers basis.now.given)) basis.now.line.now work.old.now work.new.now spot result (here applies node) }
    ensures lent { work.new.ghost_name ≡ work.old.ghost_name }
{
    if basis.given.kept_each == 0 {
        return visit_row(basis, work, spot, node);
    }
    keep_row(basis, work, spot, node)
}

// A use of a rule that doesn't become live: its root is visited once.
#[cycle(visiting)]
fn use_once(basis: &Basis, work: &mut &mut [u32], spot: u64, rule: u32) -> u64
    requires ready { StartsUse (lent basis.now.table.now (numbers basis.now.given)) basis.now.line.now work.old.now spot rule }
    requires open { IsOpen spot × HasRule (lent basis.now.table.now (numbers basis.now.given)) rule }
    ensures says { Does (lent basis.now.table.now (numbers basis.now.given)) basis.now.line.now work.old.now work.new.now spot result (rooting rule) }
    ensures lent { work.new.ghost_name ≡ work.old.ghost_name }
{
    let pos = pos_of(spot);
    let root = root_of(basis.table, rule);
    let a = visit(basis, work, spot, root);
    let end = end_of(a);
    if STOPPED <= end {
        return a;
    }
    let list = planted(*work, rule, pos, end, list_of(a));
    answer(end, list)
}

// A use that becomes live and grows: each attempt visits the root while the match before is held, as list `held`.
#[cycle(visiting)]
fn use_live(basis: &Basis, work: &mut &mut [u32], spot: u64, rule: u32) -> u64
    requires ready { StartsUse (lent basis.now.table.now (numbers basis.now.given)) basis.now.line.now work.old.now spot rule }
    requires open { IsOpen spot × HasRule (lent basis.now.table.now (numbers basis.now.given)) rule }
    requires fresh { NotLive work.old.now (live_in spot) (key_of rule (pos_in spot)) }
    ensures says { Does (lent basis.now.table.now (numbers basis.now.given)) basis.now.line.now work.old.now work.new.now spot result (here grows rule) }
    ensures lent { work.new.ghost_name ≡ work.old.ghost_name }
{
    let root = root_of(basis.table, rule);
    let pos = pos_of(spot);
    let key = pos * RULES + rule;
    let live = live_of(spot);
    put_use(*work, live, key, 0, 0);
    let first = visit(basis, work, spot + LIVE, root);
    let reached = end_of(first);
    if STOPPED <= reached {
        return first;
    }
    let mut end = reached;
    let mut held = planted(*work, rule, pos, reached, list_of(first));
    let last = loop {
        put_use(*work, live, key, end, held);
        let next = visit(basis, work, spot + LIVE, root);
        let reached = end_of(next);
        if reached == STOPPED {
            break next;
        }
        if reached == FAILED {
            break answer(end, held);
        }
        if reached <= end {
            break answer(end, held);
        }
        held = planted(*work, rule, pos, reached, list_of(next));
        end = reached;
    };
    last
}

// A use of a rule that isn't live, where nothing is kept: it becomes live, or visits its root once.
#[cycle(visiting)]
fn use_fresh(basis: &Basis, work: &mut &mut [u32], spot: u64, rule: u32) -> u64
    requires ready { StartsUse (lent basis.now.table.now (numbers basis.now.given)) basis.now.line.now work.old.now spot rule }
    requires open { IsOpen spot × (rule < rules_in (lent basis.now.table.now (numbers basis.now.given))) }
    requires plain { keeps_in (lent basis.now.table.now (numbers basis.now.given)) ≡ false }
    requires fresh { grows_in (lent basis.now.table.now (numbers basis.now.given)) rule ≡ true → NotLive work.old.now (live_in spot) (key_of rule (pos_in spot)) }
    ensures says { Does (lent basis.now.table.now (numbers basis.now.given)) basis.now.line.now work.old.now work.new.now spot result (here uses rule) }
    ensures lent { work.new.ghost_name ≡ work.old.ghost_name }
{
    if bits::has_rule(basis.given.growing, rule as usize) {
        return use_live(basis, work, spot, rule);
    }
    use_once(basis, work, spot, rule)
}

// A use of a rule where nothing is kept: what is held if it is live.
#[cycle(visiting)]
fn use_rule(basis: &Basis, work: &mut &mut [u32], spot: u64, rule: u32) -> u64
    requires ready { StartsUse (lent basis.now.table.now (numbers basis.now.given)) basis.now.line.now work.old.now spot rule }
    requires open { IsOpen spot × (rule < rules_in (lent basis.now.table.now (numbers basis.now.given))) }
    requires plain { keeps_in (lent basis.now.table.now (numbers basis.now.given)) ≡ false }
    ensures says { Does (lent basis.now.table.now (numbers basis.now.given)) basis.now.line.now work.old.now work.new.now spot result (here uses rule) }
    ensures lent { work.new.ghost_name ≡ work.old.ghost_name }
{
    if let Some(live) = live_use(&basis.given, work, spot, rule) {
        return held_by(work, live);
    }
    use_fresh(basis, work, spot, rule)
}

// A sequence or a choice: its two children.
#[cycle(visiting)]
fn visit_pair(basis: &Basis, work: &mut &mut [u32], spot: u64, node: u32) -> u64
    requires ready { StartsHere (lent basis.now.table.now (numbers basis.now.given)) basis.now.line.now work.old.now spot node }
    requires open { IsOpen spot × IsPair (lent basis.now.table.now (numbers basis.now.given)) node }
    ensures says { Does (lent basis.now.table.now (numbers basis.now.given)) basis.now.line.now work.old.now work.new.now spot result (here applies node) }
    ensures lent { work.new.ghost_name ≡ work.old.ghost_name }
{
    let x = a_of(&basis.given, basis.table, node);
    let y = b_of(&basis.given, basis.table, node);
    if kind_of(&basis.given, basis.table, node) == 3 {
        return visit_sequence(basis, work, spot, x, y);
    }
    visit_choice(basis, work, spot, x, y)
}

// (A decision over layout's Node, here and in the two functions that decide over kinds too, reads both fields of every node: five lines of 60 digits by a free sheet
// took 342,336 instructions instead of 338,141.)
// One node's application: a decision over the kind, 0 to 6 and all above; then its answer is kept, where answers are. A rule comes here only
// where they are.
#[cycle(visiting)]
fn apply(basis: &Basis, work: &mut &mut [u32], spot: u64, node: u32) -> u64
    requires ready { StartsHere (lent basis.now.table.now (numbers basis.now.given)) basis.now.line.now work.old.now spot node }
    requires open { IsOpen spot }
    requires kept { Unkept (lent basis.now.table.now (numbers basis.now.given)) work.old.now spot node }
    ensures says { Does (lent basis.now.table.now (numbers basis.now.given)) basis.now.line.now work.old.now work.new.now spot result (here opens node) }
    ensures lent { work.new.ghost_name ≡ work.old.ghost_name }
{
    let done = match kind_of(&basis.given, basis.table, node) {
        0 => answer(pos_of(spot), 0),
        1 => visit_range(
            &basis.given,
            basis.table,
            basis.line,
            work,
            pos_of(spot),
            node,
        ),
        2 => use_once(basis, work, spot, a_of(&basis.given, basis.table, node)),
        3 => visit_pair(basis, work, spot, node),
        4 => visit_pair(basis, work, spot, node),
        5 => visit_not(basis, work, spot, a_of(&basis.given, basis.table, node)),
        6 => visit_repetition(basis, work, spot, node),
        _ => answer(pos_of(spot), 0),
    };
    if basis.given.kept_each == 0 {
        return done;
    }
    keep(
        &basis.given,
        *work,
        node,
        pos_of(spot),
        end_of(done),
        list_of(done),
    );
    done
}

// An open visit where nothing is kept: it has nothing to do after what it calls, so it ends in a jump to it.
#[cycle(visiting)]
fn visit_open(basis: &Basis, work: &mut &mut [u32], spot: u64, node: u32) -> u64
    requires ready { StartsHere (lent basis.now.table.now (numbers basis.now.given)) basis.now.line.now work.old.now spot node }
    requires open { IsOpen spot × (keeps_in (lent basis.now.table.now (numbers basis.now.given)) ≡ false) }
    ensures says { Does (lent basis.now.table.now (numbers basis.now.given)) basis.now.line.now work.old.now work.new.now spot result (here opens node) }
    ensures lent { work.new.ghost_name ≡ work.old.ghost_name }
{
    match kind_of(&basis.given, basis.table, node) {
        1 => visit_range(
            &basis.given,
            basis.table,
            basis.line,
            work,
            pos_of(spot),
            node,
        ),
        2 => use_rule(basis, work, spot, a_of(&basis.given, basis.table, node)),
        3 => visit_pair(basis, work, spot, node),
        4 => visit_pair(basis, work, spot, node),
        _ => apply(basis, work, spot, node),
    }
}

// A visit: the answer that is kept, or else the node is applied. It keeps no place on the stack, since it ends in a jump to what it calls; a range needs no call.
#[cycle(visiting)]
fn visit(basis: &Basis, work: &mut &mut [u32], spot: u64, node: u32) -> u64
    requires ready { StartsHere (lent basis.now.table.now (numbers basis.now.given)) basis.now.line.now work.old.now spot node }
    ensures says { DoesVisit (lent basis.now.table.now (numbers basis.now.given)) basis.now.line.now work.old.now work.new.now spot result (here reading node) }
    ensures lent { work.new.ghost_name ≡ work.old.ghost_name }
{
    if let Err(refusal) = enter(&basis.given, work, spot) {
        return stopped(refusal, pos_of(spot));
    }
    if basis.given.kept_each == 0 {
        return visit_open(basis, work, spot - OPEN, node);
    }
    let pos = pos_of(spot);
    if let Some(kept) = kept_answer(&basis.given, work, node, pos) {
        return kept;
    }
    if kind_of(&basis.given, basis.table, node) == 1 {
        let done = visit_range(&basis.given, basis.table, basis.line, work, pos, node);
        keep(&basis.given, *work, node, pos, end_of(done), list_of(done));
        return done;
    }
    apply(basis, work, spot - OPEN, node)
}

// The use of rule 0 at position 0, which is not itself a visit.
fn first_use(basis: &Basis, work: &mut &mut [u32]) -> u64
    requires ready { StartsUse (lent basis.now.table.now (numbers basis.now.given)) basis.now.line.now work.old.now beginning 0 }
    requires some { 0 < rules_in (lent basis.now.table.now (numbers basis.now.given)) }
    ensures says { Does (lent basis.now.table.now (numbers basis.now.given)) basis.now.line.now work.old.now work.new.now beginning result (here uses 0) }
    ensures lent { work.new.ghost_name ≡ work.old.ghost_name }
{
    if basis.given.kept_each != 0 {
        return use_once(basis, work, BEGINNING, 0);
    }
    use_fresh(basis, work, BEGINNING, 0)
}

// The whole reading: what it answers, and the working numbers that it was lent. (They are moved once more before they are returned: `all` itself
// would go back as a part of what was lent, under a name of its own.)
pub fn read_line<'a>(
    given: &Given,
    table: &[u8],
    line: &[u8],
    work: &'a mut [u32],
    answer: &mut u64,
) -> &'a mut [u32]
    requires ready { StartsUse (lent table.now (numbers given.now)) line.now work.old beginning 0 }
    requires some { 0 < rules_in (lent table.now (numbers given.now)) }
    ensures says { Does (lent table.now (numbers given.now)) line.now work.old result.now beginning answer.new (here uses 0) }
    ensures lent { result.ghost_name ≡ work.entry.ghost_name }
{
    let mut all = work;
    let basis = Basis {
        given: *given,
        table,
        line,
    };
    *answer = first_use(&basis, &mut all);
    let whole = all;
    whole
}

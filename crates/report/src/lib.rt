// The report on a table: which rules may be empty, which are left-recursive, and whether the sheet is free (document 01, "The report", and 02's W-202).
//
// `report` takes any bytes, asks nothing of its caller and writes nowhere. Of a table that the check refuses it gives the check's refusal.
// `judge` asks for a table that is laid out well, for the marks of the nodes that may be empty (the crate `empties`), and for working numbers, as many as two
// for each node that a table may have. Of those it uses two for each node that the table has, and leaves the others as they were. It is for the reader, which
// has such numbers at hand: a local array would have to be cleared.
//
// How it is worked out:
// - Which nodes and rules may be empty is known once the check is made (`sheet::examine`).
// - A pass goes once over the nodes, children first. Of each it puts down the rules that are used at its start, no rule's root gone into.
// - That gives for each rule the rules at the start of its root. These sets are closed by turns through each rule. A rule that is in its own
//   set is left-recursive.
// - A sheet is free if none of them is reachable from rule 0. Where there is none, or where rule 0 leads to one at its start, nothing more is worked out.
//   Else one more pass puts down of each node the rules that it uses anywhere: those at its start if every node could be empty. Then rounds, from rule 0 on:
//   the rules that a reachable rule's root uses are reachable.
//
// What a reader must believe: specs/Report, with meaning's Report behind it, and specs/Lent. specs/Pass is what the other functions' contracts cite.
// What is proved of it:
//   proofs/Once        one report on a table, and one result; one judgement of it, and one content of the working numbers after it
//   proofs/Computed    both masks are those that meaning's Decide computes
//   proofs/Worked      01's sheets A and B, and B with a rule that nobody uses
//   proofs/Words       what is put down for a node is read there; a pass settles every node
//   proofs/Passes      what the passes over a table leave
//   proofs/Sets        one turn of the closing of sets of rules, and one round from rule 0 on
//   proofs/Tables      a table's nodes and roots, by the numbers that the code reads
//   proofs/Standing    what is put down for a node, by the children that count: at its start, or all of them
//   proofs/Recursion   what stands at a node's start is led to, and what is led to is in the closed sets
//   proofs/Reaching    what a node uses anywhere, and that the rounds from rule 0 on find the reachable rules
//   proofs/Freely      a sheet is free exactly if no left-recursive rule is found to be reachable
#![tactic(auto)]

ghost use Rattle.std.specs.Prelude.{◌≡◌, ◌∷◌, [], true, ℕ, ◌+◌, ◌*◌, ◌<◌, ◌≤◌, length, get_or};
ghost use Rattle.bits.specs.Mask.{has, one};
ghost use Rattle.bits.specs.Marks.{marked};
ghost use Rattle.meaning.specs.Grammar.{node};
ghost use Rattle.layout.specs.Table.{nodes_of, most_nodes, rules_of, most_rules, grammar_of};
ghost use Rattle.layout.specs.Layout.{Laid};
ghost use Rattle.empties.specs.Empties.{EmptyNodes};
ghost use Rattle.empties.specs.Pass.{Gathered};
ghost use Rattle.report.specs.Pass.{in_row, starts_of, starts_at, put, passed_all, started_all, used_all, root_starts, every_node, empty_node, Settled, in_set, widened, led, spread};
ghost use Rattle.report.specs.Report.{LeftRules, ReachableRules, numbers_of, Reported};
ghost use Rattle.report.specs.Lent.{StartRules, Judged, Answered};

use bits::WORDS;
use layout::{Node, Table};

// How many working numbers `judge` asks for.
pub const SCRATCH: usize = 2 * layout::MOST_NODES;

// What the report gives of an accepted table: the rules whose root may be empty and those that are left-recursive (bit i for rule i),
// how many of the second there are, and the lowest of them, 64 if there is none; and whether no rule that rule 0 reaches is left-recursive.
// The lowest is 64, and no Option, because `Reported` promises the number so.
#[derive(Clone, Copy, Debug, PartialEq, Eq)]
pub struct Findings {
    pub may_be_empty: u64,
    pub left_recursive: u64,
    pub how_many: u32,
    pub lowest: u32,
    pub free: bool,
}

// What the reader is told: the left-recursive rules, as in the report, and whether none of them is reachable from rule 0.
#[derive(Clone, Copy, Debug, PartialEq, Eq)]
pub struct Judgement {
    pub left_recursive: u64,
    pub free: bool,
}

// The rules to which chains of starts lead: from themselves, and from rule 0.
#[derive(Clone, Copy)]
struct Led {
    left_recursive: u64,
    at_start: u64,
}

// The rules that are put down for node i, by its two working numbers: what a reading uses is lent, and those numbers have 32 bits.
#[tactic(auto, unfolding(crate::specs::Pass::starts_at))]
fn starts_at(scratch: &[u32], i: usize) -> u64
    requires { 2 * i + 1 < length scratch.now }
    ensures { result ≡ starts_at scratch.now i }
{
    let at = 2 * i;
    bits::from_halves(scratch[at], scratch[at + 1])
}

fn put(scratch: &mut [u32], i: usize, starts: u64)
    requires { 2 * i + 1 < length scratch.old }
    ensures { scratch.new ≡ put scratch.old i starts }
{
    let at = 2 * i;
    scratch[at] = bits::low_half(starts);
    scratch[at + 1] = bits::high_half(starts);
}

// One node, then another: the second is at the start too where the first may be empty.
#[tactic(auto, unfolding(crate::specs::Pass::in_row))]
fn in_row(empty: bool, x: u64, y: u64) -> u64
    ensures { result ≡ in_row empty x y }
{
    if empty { x | y } else { x }
}

// The rules at the start of node i, by what is put down for its children and by the nodes that are marked as empty.
fn of_node(table: &Table, scratch: &[u32], marks: &[u64; WORDS], i: usize) -> u64
    requires { (i < nodes_of table.now.bytes.now) × (2 * most_nodes ≤ length scratch.now) }
    ensures { result ≡ starts_of (marked marks.now) (starts_at scratch.now) (node (grammar_of table.now.bytes.now) i) }
{
    match table.node(i) {
        Node::Rule(a) => 1u64 << a,
        Node::Sequence(a, b) => in_row(
            bits::marked(marks, a),
            starts_at(scratch, a),
            starts_at(scratch, b),
        ),
        Node::Choice(a, b) => starts_at(scratch, a) | starts_at(scratch, b),
        Node::Not(a) => starts_at(scratch, a),
        Node::Repetition(a) => starts_at(scratch, a),
        Node::Empty | Node::Range(_, _) => 0,
    }
}

// One pass over the nodes: the rules at the start of each, two working numbers a node.
// They stand beside the table: a type of both would have a ghost field beside a &mut, and that gets no proof.
fn pass(table: &Table, scratch: &mut [u32], marks: &[u64; WORDS])
    requires { 2 * most_nodes ≤ length scratch.old }
    ensures { scratch.new ≡ passed_all table.now.bytes.now (marked marks.now) scratch.old }
{
    for i in 0..table.node_count() {
        let x = of_node(table, scratch, marks, i);
        put(scratch, i, x);
    }
}

// For each rule the rules that are used at the start of its root.
fn steps(table: &Table, scratch: &[u32], to: &mut [u64])
    requires { (2 * most_nodes ≤ length scratch.now) × (length to.old ≡ rules_of table.now.bytes.now) }
    ensures { (length to.new ≡ rules_of table.now.bytes.now) × ((a : ℕ) → a < rules_of table.now.bytes.now → get_or to.new a 0 ≡ root_starts table.now.bytes.now scratch.now a) }
{
    for (a, set) in to.iter_mut().enumerate() {
        *set = starts_at(scratch, table.root(a));
    }
}

// A rule's set, with the row of rule k where the set has k.
#[tactic(auto, unfolding(crate::specs::Pass::widened))]
fn widened(set: u64, row: u64, k: usize) -> u64
    requires { k < 64 }
    ensures { result ≡ widened row k set }
{
    if bits::has_rule(set, k) {
        set | row
    } else {
        set
    }
}

// The chains that go by way of rule k too.
fn through(to: &mut [u64], k: usize)
    requires { (length to.old ≤ most_rules) × (k < length to.old) }
    ensures { (a : ℕ) → a < length to.old → get_or to.new a 0 ≡ widened (get_or to.old k 0) k (get_or to.old a 0) }
{
    let row = to[k];
    if row == 0 {
        return;
    }
    for set in to.iter_mut() {
        *set = widened(*set, row, k);
    }
}

// For each rule the rules to which a chain of steps leads.
fn close(to: &mut [u64])
    requires { length to.old ≤ most_rules }
    ensures { (a b : ℕ) → a < length to.old → in_set to.new a b ≡ led (in_set to.old) (length to.old) a b }
{
    for k in 0..to.len() {
        through(to, k);
    }
}

// The rules from which a chain leads back.
fn led_back(to: &[u64]) -> u64
    requires { length to.now ≤ most_rules }
    ensures { Gathered (λ a. in_set to.now a a) 0 (length to.now) result }
{
    let mut found = 0;
    for (a, set) in to.iter().enumerate() {
        if bits::has_rule(*set, a) {
            found = bits::add_rule(found, a);
        }
    }
    found
}

// The left-recursive rules and those at the start of rule 0, by the last pass.
fn chains(table: &Table, scratch: &[u32]) -> Led
    requires { (2 * most_nodes ≤ length scratch.now) × Settled (grammar_of table.now.bytes.now) (empty_node table.now.bytes.now) (starts_at scratch.now) }
    ensures { LeftRules (grammar_of table.now.bytes.now) result.left_recursive × StartRules (grammar_of table.now.bytes.now) result.at_start }
{
    let mut sets = [0u64; layout::MOST_RULES];
    let to = &mut sets[..table.rule_count()];
    steps(table, scratch, to);
    close(to);
    Led {
        left_recursive: led_back(to),
        at_start: bits::add_rule(to[0], 0),
    }
}

// The left-recursive rules and those at the start of rule 0, by the nodes that are marked as empty.
fn masks(table: &Table, scratch: &mut [u32], marks: &[u64; WORDS]) -> Led
    requires { EmptyNodes (grammar_of table.now.bytes.now) marks.now × (2 * most_nodes ≤ length scratch.old) }
    ensures { LeftRules (grammar_of table.now.bytes.now) result.left_recursive × StartRules (grammar_of table.now.bytes.now) result.at_start × (scratch.new ≡ started_all table.now.bytes.now scratch.old) }
{
    pass(table, scratch, marks);
    chains(table, scratch)
}

// One pass more: the rules that each node uses anywhere. They are those at its start if every node could be empty, and so each is marked.
fn pass_uses(table: &Table, scratch: &mut [u32])
    requires { 2 * most_nodes ≤ length scratch.old }
    ensures { scratch.new ≡ used_all table.now.bytes.now scratch.old }
{
    let every = [u64::MAX; WORDS];
    pass(table, scratch, &every);
}

// One round: to the rules that are reached, those that the root of each uses.
fn round(table: &Table, scratch: &[u32], reached: u64) -> u64
    requires { 2 * most_nodes ≤ length scratch.now }
    ensures { result ≡ spread (root_starts table.now.bytes.now scratch.now) reached (length (grammar_of table.now.bytes.now).roots) }
{
    let mut more = reached;
    for a in 0..table.rule_count() {
        more = widened(more, starts_at(scratch, table.root(a)), a);
    }
    more
}

// The reachable rules, by the last pass and by some of them, rule 0 among them: rounds as long as each finds one more.
// This loop until nothing is added and `passes` of the crate `empties` stay two: what one turn needs differs, and a closure for it would be as long as the loop.
fn reachable_rules(table: &Table, scratch: &[u32], some: u64) -> u64
    requires { (2 * most_nodes ≤ length scratch.now) × Settled (grammar_of table.now.bytes.now) every_node (starts_at scratch.now) × StartRules (grammar_of table.now.bytes.now) some }
    ensures { ReachableRules (grammar_of table.now.bytes.now) result }
{
    let mut reached = some;
    loop {
        let more = round(table, scratch, reached);
        if more == reached {
            return reached;
        }
        reached = more;
    }
}

// Whether no left-recursive rule is reachable. Where there is none, or one stands at the start of rule 0, the working numbers stay.
// `Used` (specs/Lent) promises that; so these two are asked first, and are not left to the last line, which would answer the same.
#[tactic(auto, using(crate::proofs::Freely::free_zero, crate::proofs::Freely::told_zero))]
fn none_reached(table: &Table, scratch: &mut [u32], left_recursive: u64, at_start: u64) -> bool
    requires { (2 * most_nodes ≤ length scratch.old) × LeftRules (grammar_of table.now.bytes.now) left_recursive × StartRules (grammar_of table.now.bytes.now) at_start }
    ensures { Judged table.now.bytes.now result scratch.old scratch.new }
{
    if left_recursive == 0 {
        return true;
    }
    if !bits::apart(at_start, left_recursive) {
        return false;
    }
    pass_uses(table, scratch);
    let reached = reachable_rules(table, scratch, at_start);
    bits::apart(reached, left_recursive)
}

// 01's report on any bytes: what is found of an accepted table, or the check's refusal.
pub fn report(table: &[u8]) -> Result<Findings, sheet::Refusal>
    ensures { Reported table.now (numbers_of result) }
{
    let mut marks = [0u64; WORDS];
    let examined = sheet::examine(table, &mut marks);
    examined.verdict?;
    let mut scratch = [0u32; SCRATCH];
    let found = judge(table, &mut scratch, &marks);
    Ok(Findings {
        may_be_empty: examined.empty_rules,
        left_recursive: found.left_recursive,
        how_many: bits::count(found.left_recursive),
        lowest: bits::lowest(found.left_recursive),
        free: found.free,
    })
}

// What a report has for numbers where the table is refused: 01's "on a refusal both masks and the number are 0, the lowest is 64", and it is not free.
const NOTHING_FOUND: Findings = Findings {
    may_be_empty: 0,
    left_recursive: 0,
    how_many: 0,
    lowest: 64,
    free: false,
};

// 01's numbers of a report: code, place, the rules that may be empty, the left-recursive ones, how many of them, the lowest (64 if there is none), and 1 if
// the sheet is free.
pub fn numbers(found: Result<Findings, sheet::Refusal>) -> [u64; 7]
    ensures { let n = numbers_of found in result ≡ n.code ∷ n.place ∷ n.may_be_empty ∷ n.left_recursive ∷ n.how_many ∷ n.lowest ∷ one n.free ∷ [] }
{
    let (code, place, found) = match found {
        Ok(found) => (0, 0, found),
        Err(refusal) => (refusal.code(), refusal.place(), NOTHING_FOUND),
    };
    [
        code as u64,
        place as u64,
        found.may_be_empty,
        found.left_recursive,
        u64::from(found.how_many),
        u64::from(found.lowest),
        u64::from(found.free),
    ]
}

// Which rules of a table are left-recursive, and whether none of them is reachable, for a caller who has the nodes that may be empty and lends working numbers.
pub fn judge(table: &[u8], scratch: &mut [u32], marks: &[u64; WORDS]) -> Judgement
    requires { Laid table.now × EmptyNodes (grammar_of table.now) marks.now × (2 * most_nodes ≤ length scratch.old) }
    ensures { Answered table.now result scratch.old scratch.new }
{
    let table = Table::of(table);
    let found = masks(&table, scratch, marks);
    let free = none_reached(&table, scratch, found.left_recursive, found.at_start);
    Judgement {
        left_recursive: found.left_recursive,
        free,
    }
}

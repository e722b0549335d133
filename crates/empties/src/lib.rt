// Which nodes and rules of a table may be empty (document 01, "The report": the least reading), for the check and for the report.
//
// `mark_empties` asks for a table that is laid out well and for eight words without a mark. It marks every node that may be empty, and gives the
// rules whose root may be. It writes nowhere else.
//
// How it is worked out: a pass goes over the nodes, children first, and marks those that may be empty by the marks of their children and by the rules
// that are known to be empty. Then the rules whose root is marked are known too. Passes are repeated as long as one adds a rule. The first begins at the
// first node that is empty by itself (empty, not, repetition): what stands before it can't be empty yet. Where there is none, nothing may be empty.
//
// What a reader must believe: specs/Empties, with meaning's Report behind it. specs/Pass is what the other functions' contracts cite.
// What is proved of it:
//   proofs/Once       one mask and one content of the marks
//   proofs/Gathering  rules gathered one by one
//   proofs/Marking    what a pass marks, node by node
//   proofs/Empties    a pass marks nothing but what may be empty; where it adds no rule, it has marked all
//   proofs/Repeat     the passes put together
#![tactic(auto)]

ghost use Rattle.std.specs.Prelude.{◌≡◌, ◌<◌, ◌≤◌, length, unwrap_or};
ghost use Rattle.bits.specs.Marks.{marked};
ghost use Rattle.meaning.specs.Grammar.{root_of};
ghost use Rattle.layout.specs.Table.{nodes_of, most_nodes, most_rules, grammar_of};
ghost use Rattle.layout.specs.Layout.{Laid};
ghost use Rattle.layout.specs.Nodes.{meaning_of, Bounds};
ghost use Rattle.layout.specs.Survey.{FirstOf};
ghost use Rattle.empties.specs.Empties.{EmptyRules, EmptyNodes, Unmarked};
ghost use Rattle.empties.specs.Pass.{empty_of, alone, alone_in, Passed, Gathered};

use bits::WORDS;
use layout::{Node, Table};

// Whether a node is empty by itself.
#[tactic(auto, using(crate::proofs::Marking::rule_not_alone), unfolding(crate::specs::Pass::empty_of))]
fn by_itself(node: Node) -> bool
    ensures { result ≡ alone (meaning_of node) }
{
    matches!(node, Node::Empty | Node::Not(_) | Node::Repetition(_))
}

// The first node that is empty by itself.
fn first_empty(table: &Table) -> Option<usize>
    ensures { FirstOf (alone_in (grammar_of table.now.bytes.now)) 0 (nodes_of table.now.bytes.now) (unwrap_or result (nodes_of table.now.bytes.now)) }
{
    for i in 0..table.node_count() {
        if by_itself(table.node(i)) {
            return Some(i);
        }
    }
    None
}

// Whether a node may be empty, by the marks of its children and by the rules that are known to be empty.
#[tactic(auto, unfolding(crate::specs::Pass::empty_of))]
fn may_be_empty(marks: &[u64; WORDS], known: u64, node: Node) -> bool
    requires { Bounds most_rules most_nodes (meaning_of node) }
    ensures { result ≡ empty_of (marked marks.now) known (meaning_of node) }
{
    match node {
        Node::Empty | Node::Not(_) | Node::Repetition(_) => true,
        Node::Range(_, _) => false,
        Node::Rule(rule) => bits::has_rule(known, rule),
        Node::Sequence(a, b) => bits::marked(marks, a) && bits::marked(marks, b),
        Node::Choice(a, b) => bits::marked(marks, a) || bits::marked(marks, b),
    }
}

// One pass over the nodes, from one on.
fn pass(table: &Table, marks: &mut [u64; WORDS], known: u64, from: usize)
    requires { (length marks.old ≡ 8) × (from ≤ nodes_of table.now.bytes.now) }
    ensures { Passed (grammar_of table.now.bytes.now) known from (nodes_of table.now.bytes.now) marks.old marks.new }
{
    for i in from..table.node_count() {
        if may_be_empty(marks, known, table.node(i)) {
            bits::mark(marks, i);
        }
    }
}

// The rules known to be empty, with those whose root is marked.
fn gather(table: &Table, marks: &[u64; WORDS], known: u64) -> u64
    ensures { Gathered (λ a. marked marks.now (root_of (grammar_of table.now.bytes.now) a)) known (length (grammar_of table.now.bytes.now).roots) result × (known ≤ result) }
{
    let mut more = known;
    for a in 0..table.rule_count() {
        if bits::marked(marks, table.root(a)) {
            more = bits::add_rule(more, a);
        }
    }
    more
}

// Passes from one node on, and from the first one again as long as each adds a rule.
// This loop until nothing is added and report's `reachable_rules` stay two: a closure for one turn would carry what each keeps, here `from` and the marks.
fn passes(table: &Table, marks: &mut [u64; WORDS], first: usize) -> u64
    requires { Unmarked marks.old × FirstOf (alone_in (grammar_of table.now.bytes.now)) 0 (nodes_of table.now.bytes.now) first }
    ensures { EmptyRules (grammar_of table.now.bytes.now) result × EmptyNodes (grammar_of table.now.bytes.now) marks.new }
{
    let mut known: u64 = 0;
    let mut from = first;
    loop {
        pass(table, marks, known, from);
        let more = gather(table, marks, known);
        if more == known {
            return known;
        }
        known = more;
        from = 0;
    }
}

// The rules whose root may be empty; every node that may be is marked.
pub fn mark_empties(table: &[u8], marks: &mut [u64; WORDS]) -> u64
    requires { Laid table.now × Unmarked marks.old }
    ensures { EmptyRules (grammar_of table.now) result × EmptyNodes (grammar_of table.now) marks.new }
{
    let table = Table::of(table);
    match first_empty(&table) {
        Some(first) => passes(&table, marks, first),
        None => 0,
    }
}

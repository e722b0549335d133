// The layout of a sheet's table: what stands where, the first seven rows of the check, and the numbers of a table that passes them.
//
// `check` takes any bytes, asks nothing of its caller and writes nowhere. It gives Ok where they are laid out as document 01 describes a table;
// else the first refusal of 01's table of codes from SHORT to FIELD, with its place. It goes once over the roots and once over the nodes, and says
// where the first repetition stands: nothing but the nodes themselves is looked at for that.
// The others ask that this check gave Ok. A `Table` is such bytes with their counts, read once; it gives the roots and the nodes. `node_from` gives a node with
// its fields, each other function that takes a table one number of it. The whole check of a table is that of the crate `sheet`.
//
// What a reader must believe: specs/Table (what stands where in a table, which tables are well laid, which grammar a table is) and
// specs/Given (when each code is given). specs/Layout is the same as a procedure, which the contracts cite; specs/Nodes what the code's Node stands for.
// What is proved of it:
//   proofs/Exact   each code is given exactly when its row of 01 says, at that place; a table passes exactly if it is well laid
//   proofs/Stops   a search over the nodes stops at a fault or at a repetition; one survey of a table, and one answer of `check`
//   proofs/First   the first number that passes a test, for every search from here up
//   proofs/Laying  the grammar of such a table is closed; its nodes and roots are the table's; a node's fields by its kind
//   proofs/Worked  01's sheets A and B are well laid, and are the grammars that 01 lists
#![tactic(auto)]

mod table;

ghost use Rattle.std.specs.Prelude.{◌≡◌, ◌+◌, ◌-◌, ◌%◌, ◌<◌, ◌≤◌, length, MatchOption};
ghost use Rattle.layout.specs.Table.{pair_at, nodes_of, most_nodes, rules_of, most_rules, root_of, node_at, kind_of, field_of, a_of, b_of};
ghost use Rattle.layout.specs.Layout.{code_of, place_of, row_of, first_fault, in_range, root_fault, fields_fit, node_fault, Laid, HasNode};
ghost use Rattle.layout.specs.Nodes.{IsNode};
ghost use Rattle.layout.specs.Survey.{StopsAt, NodesSaid, survey_of, Surveyed};

pub use table::Table;

// 01: "node count n, 1 to 512", "rule count r, 1 to 64".
pub const MOST_NODES: usize = 512;

pub const MOST_RULES: usize = 64;

// The rows of 01's table of codes from SHORT to FIELD. A number is the row's place: the first such rule, or node.
#[derive(Clone, Copy, Debug, PartialEq, Eq)]
pub enum Refusal {
    Short,
    Version,
    Count,
    Length,
    Root(usize),
    Kind(usize),
    Field(usize),
}

impl Refusal {
    // 01's code of the row.
    pub fn code(self) -> usize
        ensures { result ≡ code_of self }
    {
        match self {
            Refusal::Short => 1,
            Refusal::Version => 2,
            Refusal::Count => 3,
            Refusal::Length => 4,
            Refusal::Root(_) => 5,
            Refusal::Kind(_) => 6,
            Refusal::Field(_) => 7,
        }
    }

    // The row's place, 0 where it has none.
    pub fn place(self) -> usize
        ensures { result ≡ place_of self }
    {
        match self {
            Refusal::Root(place) | Refusal::Kind(place) | Refusal::Field(place) => place,
            _ => 0,
        }
    }
}

// The number of two bytes at a place, the higher first.
fn pair(table: &[u8], at: usize) -> usize
    requires { at + 1 < length table.now }
    ensures { (result ≡ pair_at table.now at) × (result < 65536) }
{
    usize::from(u16::from_be_bytes([table[at], table[at + 1]]))
}

fn in_range(count: usize, most: usize) -> bool
    ensures { result ≡ in_range count most }
{
    (1..=most).contains(&count)
}

// Whether node i of this kind may have these fields, in a table of r rules; None: there is no such kind.
// The kind is a number, no enum: `Surveyed` promises KIND of the numbers that are none of 01's kinds.
// An arm for each kind: with `3 | 4` and `5 | 6` a check of 512 nodes takes 13,407 instructions, with these 12,886.
#[tactic(auto, unfolding(crate::specs::Layout::fields_fit))]
fn fields_fit(r: usize, i: usize, kind: u8, a: usize, b: usize) -> Option<bool>
    ensures { MatchOption result (6 < kind) (λ fit. (kind ≤ 6) × (fit ≡ fields_fit r i kind a b)) }
{
    match kind {
        0 => Some(a == 0 && b == 0),
        1 => Some(a <= b && b <= 255),
        2 => Some(a < r && b == 0),
        3 => Some(a < i && b < i),
        4 => Some(a < i && b < i),
        5 => Some(a < i && b == 0),
        6 => Some(a < i && b == 0),
        _ => None,
    }
}

// Whether node i of this table of r rules is a repetition; or what is wrong with it.
// (This and the three below come before the table is known to be laid out well, so they take its bytes and counts: a type for what they ask would be made for them alone.)
fn is_repetition(table: &[u8], r: usize, i: usize) -> Result<bool, Refusal>
    requires { (node_at r (i + 1) ≤ length table.now) × (i < most_nodes) × (r ≡ rules_of table.now) × (r ≤ most_rules) }
    ensures { StopsAt table.now i result }
{
    let at = 7 + 2 * r + 5 * i;
    let kind = table[at];
    match fields_fit(r, i, kind, pair(table, at + 1), pair(table, at + 3)) {
        None => Err(Refusal::Kind(i)),
        Some(false) => Err(Refusal::Field(i)),
        Some(true) => Ok(kind == 6),
    }
}

// No root is at n or above; else the first rule whose root is.
fn check_roots(table: &[u8], n: usize, r: usize) -> Result<(), Refusal>
    requires { (node_at r 0 ≤ length table.now) × (n ≡ nodes_of table.now) × (r ≤ most_rules) }
    ensures { row_of result ≡ first_fault (root_fault table.now) 0 r }
{
    for a in 0..r {
        if n <= pair(table, 7 + 2 * a) {
            return Err(Refusal::Root(a));
        }
    }
    Ok(())
}

// The kind and fields of each node, from one on, are as 01's table of kinds says; else the first node whose are not.
#[inline(always)]
fn check_rest(table: &[u8], n: usize, r: usize, from: usize) -> Result<(), Refusal>
    requires { (node_at r n ≤ length table.now) × (n ≤ most_nodes) × (r ≡ rules_of table.now) × (r ≤ most_rules) × (from ≤ n) }
    ensures { row_of result ≡ first_fault (node_fault table.now) from (n - from) }
{
    for i in from..n {
        is_repetition(table, r, i)?;
    }
    Ok(())
}

// The same of all nodes: where the first repetition stands, n if there is none: what `check` answers.
// Up to there a node is asked nothing but whether the search goes on, so that a table without a repetition costs nothing more.
// Compiled into `check`, as the search after it is: with calls of these two a report on the sum sheet takes 5,935 instructions, so it takes 5,905.
#[inline(always)]
fn check_nodes(table: &[u8], n: usize, r: usize) -> Result<usize, Refusal>
    requires { (node_at r n ≤ length table.now) × (n ≤ most_nodes) × (r ≡ rules_of table.now) × (r ≤ most_rules) }
    ensures { NodesSaid table.now n result }
{
    for i in 0..n {
        if is_repetition(table, r, i).unwrap_or(true) {
            check_rest(table, n, r, i)?;
            return Ok(i);
        }
    }
    Ok(n)
}

// Where the first repetition stands, as many as there are nodes if there is none, if the table is laid out as 01 says; else what 01's order of checks refuses first.
// As many as there are nodes, and no Option: `Surveyed` promises the number so.
#[tactic(auto, using(crate::proofs::Laws::says_rest), unfolding(crate::specs::Table::nodes_of, crate::specs::Table::rules_of, crate::specs::Table::length_of, crate::specs::Table::formula, crate::specs::Layout::Laid))]
pub fn check(table: &[u8]) -> Result<usize, Refusal>
    ensures { Surveyed table.now (survey_of result) }
{
    if table.len() < 7 {
        return Err(Refusal::Short);
    }
    if table[0] != 1 {
        return Err(Refusal::Version);
    }
    let n = pair(table, 3);
    let r = pair(table, 5);
    if !in_range(n, MOST_NODES) || !in_range(r, MOST_RULES) {
        return Err(Refusal::Count);
    }
    if table.len() != pair(table, 1) || table.len() != 7 + 2 * r + 5 * n {
        return Err(Refusal::Length);
    }
    check_roots(table, n, r)?;
    check_nodes(table, n, r)
}

// ---- What stands in such a table.
// These stand beside `Table`: what a public function promises stays, and the crate `visits` calls `root`, `kind_from`, `field_a_from` and `field_b_from` at its visits.

#[tactic(auto, using(crate::proofs::Laying::well_laid), unfolding(crate::specs::Table::nodes_of, crate::specs::Table::formula))]
pub fn node_count(table: &[u8]) -> usize
    requires { Laid table.now }
    ensures { (result ≡ nodes_of table.now) × (0 < result) × (result ≤ most_nodes) }
{
    pair(table, 3)
}

#[tactic(auto, using(crate::proofs::Laying::well_laid), unfolding(crate::specs::Table::rules_of, crate::specs::Table::formula))]
pub fn rule_count(table: &[u8]) -> usize
    requires { Laid table.now }
    ensures { (result ≡ rules_of table.now) × (0 < result) × (result ≤ most_rules) }
{
    pair(table, 5)
}

#[tactic(auto, using(crate::proofs::Laying::well_laid), unfolding(crate::specs::Table::root_of, crate::specs::Table::formula))]
pub fn root(table: &[u8], a: usize) -> usize
    requires { Laid table.now × (a < rules_of table.now) }
    ensures { (result ≡ root_of table.now a) × (result < nodes_of table.now) }
{
    pair(table, 7 + 2 * a)
}

// Where the nodes start.
pub fn first_node(table: &[u8]) -> usize
    requires { Laid table.now }
    ensures { (result ≡ node_at (rules_of table.now) 0) × (result ≤ 135) }
{
    7 + 2 * rule_count(table)
}

// The kind of node i, for a caller who knows where the nodes start.
#[tactic(auto, using(crate::proofs::Laying::node_place, crate::proofs::Laying::well_laid), unfolding(crate::specs::Table::kind_of))]
pub fn kind_from(table: &[u8], first: usize, i: usize) -> usize
    requires { HasNode table.now first i }
    ensures { (result ≡ kind_of table.now i) × (result ≤ 6) }
{
    let at = first + 5 * i;
    usize::from(table[at])
}

// The field of node i that stands at this byte of the node: 1 for field a, 3 for field b.
fn field_from(table: &[u8], first: usize, i: usize, at: usize) -> usize
    requires has_node { HasNode table.now first i }
    requires at_value { (at % 2 ≡ 1) × (at ≤ 3) }
    ensures { (result ≡ field_of table.now i at) × (result < most_nodes) }
{
    pair(table, first + 5 * i + at)
}

pub fn field_a_from(table: &[u8], first: usize, i: usize) -> usize
    requires { HasNode table.now first i }
    ensures { (result ≡ a_of table.now i) × (result < most_nodes) }
{
    field_from(table, first, i, 1)
}

pub fn field_b_from(table: &[u8], first: usize, i: usize) -> usize
    requires { HasNode table.now first i }
    ensures { (result ≡ b_of table.now i) × (result < most_nodes) }
{
    field_from(table, first, i, 3)
}

// A node: its kind with the fields that the kind has.
#[derive(Clone, Copy, Debug, PartialEq, Eq)]
pub enum Node {
    Empty,
    Range(usize, usize),
    Rule(usize),
    Sequence(usize, usize),
    Choice(usize, usize),
    Not(usize),
    Repetition(usize),
}

// Node i, for a caller who knows where the nodes start.
pub fn node_from(table: &[u8], first: usize, i: usize) -> Node
    requires { HasNode table.now first i }
    ensures { IsNode table.now i result }
{
    let a = field_a_from(table, first, i);
    let b = field_b_from(table, first, i);
    match kind_from(table, first, i) {
        1 => Node::Range(a, b),
        2 => Node::Rule(a),
        3 => Node::Sequence(a, b),
        4 => Node::Choice(a, b),
        5 => Node::Not(a),
        6 => Node::Repetition(a),
        _ => Node::Empty,
    }
}

// The check of a sheet's table, on which every crate above relies.
//
// `check` takes any bytes, asks nothing of its caller, is lent nothing and writes nowhere. It gives Ok where they are a table as document 01 describes it and
// no repetition has a child that may be empty; else the first refusal of 01's table of codes, SHORT to FIELD (the crate `layout`), or then LOOP (document 02,
// W-209), with its place.
//
// A table without a repetition costs nothing more. Else the repetitions are looked at from the first one on. A range is never empty, so where each repeats a
// range nothing is worked out. Only else it is worked out which nodes may be empty (the crate `empties`), in eight words. `examine` is the same check for
// those who need these nodes anyway, the report and the readings: it works them out once.
//
// What a reader must believe: specs/Given (when each code is given, and which tables are well formed), with layout's specs/Table and specs/Given and meaning's
// Report behind it. specs/Check is the same as a procedure, which the contracts cite; specs/Search is for the code's own functions.
// What is proved of it:
//   proofs/Exact      each code is given exactly when its row says, at that place; a table is accepted exactly if it is well formed
//   proofs/Accepting  an accepted table is laid out well, and its grammar has no repetition of nothing
//   proofs/ByKind     the kind of the code's node, and what a repetition repeats, by the numbers of the table
//   proofs/Searching  where the search for such a repetition may begin, and what it finds
//   proofs/Worked     01's sheets A and B are accepted; `('kW'?)*` is not
#![tactic(auto)]

ghost use Rattle.std.specs.Prelude.{◌≡◌, [], ◌∷◌, cond, ◌-◌, ◌<◌, ◌≤◌, unwrap_or};
ghost use Rattle.layout.specs.Table.{nodes_of, grammar_of};
ghost use Rattle.layout.specs.Layout.{READ, first_fault};
ghost use Rattle.layout.specs.Survey.{is_repetition, FirstOf};
ghost use Rattle.empties.specs.Empties.{EmptyNodes, Unmarked};
ghost use Rattle.sheet.specs.declared.Refusal.TheVariants.{Layout};
ghost use Rattle.sheet.specs.Check.{LOOP, code_of, place_of, verdict_of, loop_fault, check_of};
ghost use Rattle.sheet.specs.Examine.{ExaminedAs};
ghost use Rattle.sheet.specs.Search.{suspect};

use bits::WORDS;
use layout::{Node, Table};

// Why a table is turned away: by a row of the layout's, or by LOOP, with the first repetition of what may be empty.
#[derive(Clone, Copy, Debug, PartialEq, Eq)]
pub enum Refusal {
    Layout(layout::Refusal),
    Loop(usize),
}

impl From<layout::Refusal> for Refusal {
    ghost from_gives = { λ refusal whole. whole ≡ Layout refusal };

    fn from(refusal: layout::Refusal) -> Refusal {
        Refusal::Layout(refusal)
    }
}

impl Refusal {
    // The code of 01, or 02's for LOOP.
    pub fn code(self) -> usize
        ensures { result ≡ code_of self }
    {
        match self {
            Refusal::Layout(refusal) => refusal.code(),
            Refusal::Loop(_) => 17,
        }
    }

    pub fn place(self) -> usize
        ensures { result ≡ place_of self }
    {
        match self {
            Refusal::Layout(refusal) => refusal.place(),
            Refusal::Loop(node) => node,
        }
    }
}

// What the check says, and the rules whose root may be empty; none where the table is not laid out well.
// They stand beside the verdict, not in its Ok: `ExaminedAs` promises them where the verdict is LOOP too, and 0 where the layout is refused.
#[derive(Clone, Copy, Debug, PartialEq, Eq)]
pub struct Examined {
    pub verdict: Result<(), Refusal>,
    pub empty_rules: u64,
}

// Whether node i is a repetition whose child is no range.
fn suspect(table: &Table, i: usize) -> bool
    requires { i < nodes_of table.now.bytes.now }
    ensures { result ≡ suspect table.now.bytes.now i }
{
    match table.node(i) {
        Node::Repetition(child) => !matches!(table.node(child), Node::Range(_, _)),
        _ => false,
    }
}

// The first such node from one on.
fn first_suspect(table: &Table, from: usize) -> Option<usize>
    requires { from ≤ nodes_of table.now.bytes.now }
    ensures { FirstOf (suspect table.now.bytes.now) from (nodes_of table.now.bytes.now) (unwrap_or result (nodes_of table.now.bytes.now)) }
{
    (from..table.node_count()).find(|i| suspect(table, *i))
}

// Whether node i is a repetition whose child is marked as one that may be empty.
fn repeats_nothing(table: &Table, marks: &[u64; WORDS], i: usize) -> bool
    requires { (i < nodes_of table.now.bytes.now) × EmptyNodes (grammar_of table.now.bytes.now) marks.now }
    ensures { cond result LOOP READ ≡ loop_fault table.now.bytes.now i }
{
    match table.node(i) {
        Node::Repetition(child) => bits::marked(marks, child),
        _ => false,
    }
}

// LOOP with the first such node from one on.
fn first_loop(table: &Table, marks: &[u64; WORDS], from: usize) -> Result<(), Refusal>
    requires { (from ≤ nodes_of table.now.bytes.now) × EmptyNodes (grammar_of table.now.bytes.now) marks.now }
    ensures { verdict_of result ≡ first_fault (loop_fault table.now.bytes.now) from (nodes_of table.now.bytes.now - from) }
{
    for i in from..table.node_count() {
        if repeats_nothing(table, marks, i) {
            return Err(Refusal::Loop(i));
        }
    }
    Ok(())
}

// LOOP with the first repetition of nothing, in a table whose first repetition is known.
fn loops(table: &Table, repetition: usize) -> Result<(), Refusal>
    requires { FirstOf (is_repetition table.now.bytes.now) 0 (nodes_of table.now.bytes.now) repetition }
    ensures { verdict_of result ≡ first_fault (loop_fault table.now.bytes.now) 0 (nodes_of table.now.bytes.now) }
{
    match first_suspect(table, repetition) {
        None => Ok(()),
        Some(from) => {
            let mut marks = [0u64; WORDS];
            empties::mark_empties(table.bytes, &mut marks);
            first_loop(table, &marks, from)
        }
    }
}

// The same check for a caller who lends eight words without a mark: of a table that is laid out well they are left with the nodes marked that may be empty,
// and the rules are given whose root may be.
pub fn examine(table: &[u8], marks: &mut [u64; WORDS]) -> Examined
    requires { Unmarked marks.old }
    ensures { ExaminedAs table.now marks.old marks.new result }
{
    match layout::check(table) {
        Err(refusal) => Examined {
            verdict: Err(Refusal::Layout(refusal)),
            empty_rules: 0,
        },
        Ok(repetition) => {
            let empty_rules = empties::mark_empties(table, marks);
            let table = Table::of(table);
            let verdict = first_loop(&table, marks, repetition);
            Examined {
                verdict,
                empty_rules,
            }
        }
    }
}

// Ok where the table is accepted; else what the order of checks refuses first, and its place.
pub fn check(table: &[u8]) -> Result<(), Refusal>
    ensures { verdict_of result ≡ check_of table.now }
{
    let repetition = layout::check(table)?;
    let table = Table::of(table);
    loops(&table, repetition)
}

// 01's numbers of what the check gives: code and place, READ and 0 where it accepts.
pub fn numbers(verdict: Result<(), Refusal>) -> [u64; 2]
    ensures { result ≡ (verdict_of verdict).code ∷ (verdict_of verdict).place ∷ [] }
{
    match verdict {
        Ok(()) => [0, 0],
        Err(refusal) => [refusal.code() as u64, refusal.place() as u64],
    }
}

// The limits of a table: its counts, its length, its roots, kinds and fields.
ghost use Rattle.std.specs.Prelude.{◌≤◌};

use crate::build::Sheet;
use crate::say::Asked;
use crate::{say, sheets};

// So many nodes and rules, every node empty, every root 0.
fn counts_of(nodes: usize, rules: usize)
    requires { (nodes ≤ 513) × (rules ≤ 65) }
{
    let sheet = Sheet::blank(nodes, rules);
    let numbers = [nodes as u64, rules as u64];
    say::check("Check of nodes, rules", &numbers, &sheet);
    say::reading("Nodes, rules", &numbers, &sheet, b"", Asked::prefix(2_500));
}

pub(crate) fn counts() {
    counts_of(1, 1);
    counts_of(512, 64);
    counts_of(513, 64);
    counts_of(512, 65);
    counts_of(0, 1);
    counts_of(1, 0);
}

// Sheet A cut after so many bytes, down to none and up to one too many.
pub(crate) fn cuts() {
    let mut a = sheets::a();
    for length in 0..48 {
        a.set_length(length);
        say::check("A cut to bytes", &[length as u64], &a);
    }
}

// Sheet A, 7 nodes, with one root changed.
pub(crate) fn roots() {
    for (rule, node) in [(0, 6), (0, 7), (0, 256), (1, 0), (1, 7), (1, 65_535)] {
        let mut a = sheets::a();
        a.put_root(rule, node);
        say::check("A with rule, root", &[rule as u64, node as u64], &a);
    }
}

// Node 1 of two, with both fields 0, of any kind, on a line of one byte 0.
pub(crate) fn kinds() {
    for kind in 0..=u8::MAX {
        let mut sheet = Sheet::blank(2, 1);
        sheet.put_root(0, 1);
        sheet.put_fields(1, kind, 0, 0);
        say::reading(
            "Node 1 of kind",
            &[u64::from(kind)],
            &sheet,
            b"\0",
            Asked::prefix(2_500),
        );
    }
}

// Node 2 of three, in a table of two rules, with a kind and each of these pairs of fields.
fn fields_of(kind: u8, fields: &[(usize, usize)]) {
    let mut sheet = Sheet::blank(3, 2);
    for (a, b) in fields {
        sheet.put_fields(2, kind, *a, *b);
        say::check(
            "Node 2 of kind, a, b",
            &[u64::from(kind), *a as u64, *b as u64],
            &sheet,
        );
    }
}

pub(crate) fn fields() {
    // Of the empty node both are 0.
    fields_of(0, &[(0, 0), (1, 0), (256, 0), (0, 1), (0, 256)]);
    // Of a range a is at most b, and b at most 255.
    let of_range = [
        (0, 0),
        (0, 255),
        (0, 256),
        (255, 255),
        (255, 254),
        (256, 255),
        (256, 256),
        (1, 0),
        (65_535, 65_535),
    ];
    fields_of(1, &of_range);
    // Of a rule a is below 2, and b is 0.
    fields_of(2, &[(1, 0), (2, 0), (256, 0), (1, 1), (1, 256)]);
    // Of a sequence and of a choice both are below 2.
    let of_two_children = [(1, 1), (2, 1), (1, 2), (256, 1), (1, 256), (65_535, 65_535)];
    fields_of(3, &of_two_children);
    fields_of(4, &of_two_children);
    // Of a not and of a repetition a is below 2, and b is 0.
    let of_one_child = [(1, 0), (2, 0), (256, 0), (1, 1), (1, 256)];
    fields_of(5, &of_one_child);
    fields_of(6, &of_one_child);
}

// Two faults at once: the first in the order of the checks is named, and a node's fields before the next node's kind.
pub(crate) fn order() {
    let mut a = sheets::a();
    a.put_fields(1, 7, 0, 0);
    say::check("A with kind 7 at node 1", &[], &a);
    a.put_fields(0, 2, 2, 0);
    say::check("A with kind 7 at node 1, a field wrong at node 0", &[], &a);
    a.put_root(1, 7);
    say::check("A with these and root 7 of rule 1", &[], &a);
    a.set_length(45);
    say::check("A with these and a byte too few", &[], &a);
    a.put_counts(0, 2);
    say::check("A with these and no nodes", &[], &a);
    a.put_version(2);
    say::check("A with these and version 2", &[], &a);
    a.set_length(6);
    say::check("A with these and six bytes", &[], &a);
}

// The sheets of the worked lines.
ghost use Rattle.std.specs.Prelude.{◌≤◌, ◌<◌};

use crate::build::{Sheet, byte, range};
use layout::Node;
use layout::Node::{Choice, Empty, Not, Repetition, Rule, Sequence};

// S <- S '+' D / D; D <- [0-9]
pub(crate) fn a() -> Sheet {
    Sheet::new(
        &[5, 6],
        &[
            Rule(0),
            byte(b'+'),
            Rule(1),
            Sequence(1, 2),
            Sequence(0, 3),
            Choice(4, 2),
            range(b'0', b'9'),
        ],
    )
}

// N <- D ',' D / D; D <- [0-9]
pub(crate) fn b() -> Sheet {
    Sheet::new(
        &[4, 5],
        &[
            Rule(1),
            byte(b','),
            Sequence(1, 0),
            Sequence(0, 2),
            Choice(3, 0),
            range(b'0', b'9'),
        ],
    )
}

// Sheet B with a rule that nobody uses and that calls itself, R <- R
pub(crate) fn unused() -> Sheet {
    Sheet::new(
        &[4, 5, 6],
        &[
            Rule(1),
            byte(b','),
            Sequence(1, 0),
            Sequence(0, 2),
            Choice(3, 0),
            range(b'0', b'9'),
            Rule(2),
        ],
    )
}

// The same with two more nodes, the second of which is D's root.
fn unused_and(seventh: Node, eighth: Node) -> Sheet {
    Sheet::new(
        &[4, 8, 6],
        &[
            Rule(1),
            byte(b','),
            Sequence(1, 0),
            Sequence(0, 2),
            Choice(3, 0),
            range(b'0', b'9'),
            Rule(2),
            seventh,
            eighth,
        ],
    )
}

// Sheet B with D <- !R [0-9]
pub(crate) fn denied() -> Sheet {
    unused_and(Not(6), Sequence(7, 5))
}

// Sheet B with D <- [0-9] R / [0-9]
pub(crate) fn second() -> Sheet {
    unused_and(Sequence(5, 6), Choice(7, 5))
}

// Sheet B with D <- R* [0-9]
pub(crate) fn repeated() -> Sheet {
    unused_and(Repetition(6), Sequence(7, 5))
}

// N <- D / D ',' D; D <- [0-9]
pub(crate) fn turned_round() -> Sheet {
    let mut sheet = b();
    sheet.put(4, Choice(0, 3));
    sheet
}

// S <- !S 'a'
pub(crate) fn not_itself() -> Sheet {
    Sheet::new(&[3], &[Rule(0), Not(0), byte(b'a'), Sequence(1, 2)])
}

// E <- E '+' E / [0-9]
pub(crate) fn both_sides() -> Sheet {
    Sheet::new(
        &[5],
        &[
            Rule(0),
            byte(b'+'),
            Sequence(1, 0),
            Sequence(0, 2),
            range(b'0', b'9'),
            Choice(3, 4),
        ],
    )
}

// Sum <- Sum '-' Digit / Digit; Digit <- [0-9]
pub(crate) fn difference() -> Sheet {
    let mut sheet = a();
    sheet.put(1, byte(b'-'));
    sheet
}

// L <- S '.' / D; S <- S '+' D / D; D <- [0-9]
pub(crate) fn above() -> Sheet {
    Sheet::new(
        &[4, 8, 9],
        &[
            Rule(1),
            Rule(2),
            byte(b'.'),
            Sequence(0, 2),
            Choice(3, 1),
            byte(b'+'),
            Sequence(5, 1),
            Sequence(0, 6),
            Choice(7, 1),
            range(b'0', b'9'),
        ],
    )
}

// A <- B 'x' / 'y'; B <- A / D; D <- 'z'
pub(crate) fn indirect() -> Sheet {
    Sheet::new(
        &[4, 7, 8],
        &[
            Rule(1),
            byte(b'x'),
            Sequence(0, 1),
            byte(b'y'),
            Choice(2, 3),
            Rule(0),
            Rule(2),
            Choice(5, 6),
            byte(b'z'),
        ],
    )
}

// S <- 'x'? S T / T; T <- 'a'; U <- 'x'?, which is node 6
pub(crate) fn behind_an_option() -> Sheet {
    Sheet::new(
        &[9, 3, 6],
        &[
            Rule(0),
            Rule(1),
            Rule(2),
            byte(b'a'),
            byte(b'x'),
            Empty,
            Choice(4, 5),
            Sequence(0, 1),
            Sequence(6, 7),
            Choice(8, 1),
        ],
    )
}

// The same with !'x' as node 6
pub(crate) fn behind_a_not() -> Sheet {
    let mut sheet = behind_an_option();
    sheet.put(6, Not(4));
    sheet
}

// The same with 'x'* as node 6
pub(crate) fn behind_a_repetition() -> Sheet {
    let mut sheet = behind_an_option();
    sheet.put(6, Repetition(4));
    sheet
}

// S <- U S T / T; T <- 'a'; U <- 'x'?
pub(crate) fn behind_a_rule() -> Sheet {
    let mut sheet = behind_an_option();
    sheet.put(8, Sequence(2, 7));
    sheet
}

// S <- U S T / T; T <- 'a'; U <- 'x'
pub(crate) fn behind_a_byte() -> Sheet {
    let mut sheet = behind_a_rule();
    sheet.put_root(2, 4);
    sheet
}

// S <- 'a'*
pub(crate) fn letters() -> Sheet {
    Sheet::new(&[1], &[byte(b'a'), Repetition(0)])
}

// S <- [0-9]*
pub(crate) fn digits() -> Sheet {
    Sheet::new(&[1], &[range(b'0', b'9'), Repetition(0)])
}

// T <- 'a' T / (empty); S is node 0, which is T, or node 2 or 3, T behind one empty node or two
pub(crate) fn right_recursive(node: usize) -> Sheet {
    Sheet::new(
        &[node, 7],
        &[
            Rule(1),
            Empty,
            Sequence(1, 0),
            Sequence(1, 2),
            byte(b'a'),
            Sequence(4, 0),
            Empty,
            Choice(5, 6),
        ],
    )
}

// So many rules, each the next one twice, the last empty. Node 0 is the last one's root. Rule q has two nodes, the use of
// the next rule and, as its root, the sequence of that use and itself.
pub(crate) fn doubling(rules: usize) -> Sheet
    requires { (0 < rules) × (rules ≤ 64) }
{
    let mut sheet = Sheet::blank(2 * rules - 1, rules);
    for q in 0..rules - 1 {
        let top = 2 * (rules - 1 - q);
        sheet.put_root(q, top);
        sheet.put(top - 1, Rule(q + 1));
        sheet.put(top, Sequence(top - 1, top - 1));
    }
    sheet
}

// ('kW'?)*, a repetition of nothing
pub(crate) fn kilowatts_or_nothing() -> Sheet {
    Sheet::new(
        &[5],
        &[
            byte(b'k'),
            byte(b'W'),
            Sequence(0, 1),
            Empty,
            Choice(2, 3),
            Repetition(4),
        ],
    )
}

// 'kW'*, in the same nodes
pub(crate) fn kilowatts() -> Sheet {
    let mut sheet = kilowatts_or_nothing();
    sheet.put(5, Repetition(2));
    sheet
}

// S <- R*; R <- R 'a' / (empty)
pub(crate) fn over_left_recursion() -> Sheet {
    Sheet::new(
        &[5, 4],
        &[
            Rule(1),
            byte(b'a'),
            Sequence(0, 1),
            Empty,
            Choice(2, 3),
            Repetition(0),
        ],
    )
}

// S <- P*; P <- Q Q / 'a'; Q <- P / (empty)
pub(crate) fn over_two_rules() -> Sheet {
    Sheet::new(
        &[7, 4, 6],
        &[
            Rule(1),
            Rule(2),
            Sequence(1, 1),
            byte(b'a'),
            Choice(2, 3),
            Empty,
            Choice(0, 5),
            Repetition(0),
        ],
    )
}

// S <- P*; P <- Q; Q <- P: neither may be empty
pub(crate) fn over_two_needs() -> Sheet {
    Sheet::new(&[2, 1, 0], &[Rule(1), Rule(2), Repetition(0)])
}

// S <- (!'a')*
pub(crate) fn over_a_not() -> Sheet {
    Sheet::new(&[2], &[byte(b'a'), Not(0), Repetition(1)])
}

// S <- ('a'*)*
pub(crate) fn over_a_repetition() -> Sheet {
    Sheet::new(&[2], &[byte(b'a'), Repetition(0), Repetition(1)])
}

// S <- 'a', and a repetition of the empty node that nobody uses
pub(crate) fn never_used() -> Sheet {
    Sheet::new(&[0], &[byte(b'a'), Empty, Repetition(1)])
}

// S <- ((empty)*)*
pub(crate) fn two_of_them() -> Sheet {
    Sheet::new(&[2], &[Empty, Repetition(0), Repetition(1)])
}

// S <- 'a' !('b' 'c')
pub(crate) fn looking_ahead() -> Sheet {
    Sheet::new(
        &[5],
        &[
            byte(b'a'),
            byte(b'b'),
            byte(b'c'),
            Sequence(1, 2),
            Not(3),
            Sequence(0, 4),
        ],
    )
}

// S <- R 'x' / 'b' / R; R <- 'a' 'b' 'c' / 'a'
pub(crate) fn kept() -> Sheet {
    Sheet::new(
        &[5, 10],
        &[
            Rule(1),
            byte(b'x'),
            Sequence(0, 1),
            byte(b'b'),
            Choice(3, 0),
            Choice(2, 4),
            byte(b'a'),
            byte(b'c'),
            Sequence(3, 7),
            Sequence(6, 8),
            Choice(9, 6),
        ],
    )
}

// S <- S 'b' 'c' / 'a'
pub(crate) fn growing() -> Sheet {
    Sheet::new(
        &[6],
        &[
            Rule(0),
            byte(b'b'),
            byte(b'c'),
            Sequence(1, 2),
            Sequence(0, 3),
            byte(b'a'),
            Choice(4, 5),
        ],
    )
}

// S <- 'a'
pub(crate) fn letter() -> Sheet {
    Sheet::new(&[0], &[byte(b'a')])
}

// S <- (empty)
pub(crate) fn nothing() -> Sheet {
    Sheet::new(&[0], &[Empty])
}

// S <- !(empty)
pub(crate) fn never() -> Sheet {
    Sheet::new(&[1], &[Empty, Not(0)])
}

// S <- !('a'* 'b') 'a' S
pub(crate) fn looking_on() -> Sheet {
    Sheet::new(
        &[7],
        &[
            byte(b'a'),
            Repetition(0),
            byte(b'b'),
            Sequence(1, 2),
            Not(3),
            Rule(0),
            Sequence(0, 5),
            Sequence(4, 6),
        ],
    )
}

// S <- '(' S / R; R <- T; T <- U; U <- [0-9]*
pub(crate) fn three_in_brackets() -> Sheet {
    Sheet::new(
        &[6, 7, 8, 4],
        &[
            byte(b'('),
            Rule(0),
            Sequence(0, 1),
            range(b'0', b'9'),
            Repetition(3),
            Rule(1),
            Choice(2, 5),
            Rule(2),
            Rule(3),
        ],
    )
}

// The same with T <- [0-9]*
pub(crate) fn two_in_brackets() -> Sheet {
    let mut sheet = three_in_brackets();
    sheet.put_root(2, 4);
    sheet
}

// The same with R <- [0-9]*
pub(crate) fn one_in_brackets() -> Sheet {
    let mut sheet = three_in_brackets();
    sheet.put_root(1, 4);
    sheet
}

// S <- R 'x' / 'a' R 'y' / R; R <- the letters from 'a' to the last one, repeated
pub(crate) fn tried_thrice(last: u8) -> Sheet {
    Sheet::new(
        &[8, 10],
        &[
            Rule(1),
            byte(b'x'),
            Sequence(0, 1),
            byte(b'a'),
            byte(b'y'),
            Sequence(0, 4),
            Sequence(3, 5),
            Choice(6, 0),
            Choice(2, 7),
            range(b'a', last),
            Repetition(9),
        ],
    )
}

// S <- ('a'* 'b')*
pub(crate) fn rows_in_a_row() -> Sheet {
    Sheet::new(
        &[4],
        &[
            byte(b'a'),
            Repetition(0),
            byte(b'b'),
            Sequence(1, 2),
            Repetition(3),
        ],
    )
}

// S <- R*; R is the first of nine rules, each the next one, the last 'a'
pub(crate) fn nine_names() -> Sheet {
    let mut sheet = Sheet::blank(11, 10);
    sheet.put_root(0, 10);
    sheet.put(10, Repetition(1));
    for q in 1..10 {
        sheet.put_root(q, q + 1);
        sheet.put(q, Rule(q));
    }
    sheet.put_root(9, 0);
    sheet.put(0, byte(b'a'));
    sheet
}

// The same with eight
pub(crate) fn eight_names() -> Sheet {
    let mut sheet = nine_names();
    sheet.put_root(8, 0);
    sheet
}

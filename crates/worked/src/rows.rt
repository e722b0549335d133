// Rows: a repetition's next visit of itself takes the place of the one before.
use crate::{say, sheets};

// As long as a line, with just enough visits and one short; and refused at a turn and at the range behind it.
pub(crate) fn one_row() {
    let s = sheets::digits();
    let line = [b'7'; 255];
    say::whole("S <- [0-9]* on 255 digits, allowance 512", &s, &line, 512);
    say::whole("S <- [0-9]* on 255 digits, allowance 511", &s, &line, 511);
    say::prefix(
        "S <- [0-9]* on 10 digits, allowance 10",
        &s,
        b"0123456789",
        10,
    );
    say::prefix(
        "S <- [0-9]* on 10 digits, allowance 11",
        &s,
        b"0123456789",
        11,
    );
}

// Behind 169 brackets the range of the row is the open visit number 510 and the rules, with digits or without.
pub(crate) fn far_inside() {
    let mut line = [b'7'; 255];
    line[..169].fill(b'(');
    say::whole(
        "86 digits in 169 brackets, 511 open visits",
        &sheets::one_in_brackets(),
        &line,
        2_000,
    );
    say::whole(
        "86 digits in 169 brackets, 512 open visits",
        &sheets::two_in_brackets(),
        &line,
        2_000,
    );
    let three = sheets::three_in_brackets();
    say::whole(
        "86 digits in 169 brackets, 513 open visits",
        &three,
        &line,
        2_000,
    );
    say::whole(
        "No digits in 169 brackets, 513 open visits",
        &three,
        page::front(&line, 169),
        2_000,
    );
}

// Each pair of a row is kept, and found again in its middle.
pub(crate) fn come_back() {
    let all = sheets::tried_thrice(b'z');
    say::prefix(
        "S <- R 'x' / 'a' R 'y' / R, R <- [a-z]* on abc",
        &all,
        b"abc",
        2_500,
    );
    say::prefix(
        "S <- R 'x' / 'a' R 'y' / R, R <- [a-z]* on aby",
        &all,
        b"aby",
        2_500,
    );
    let few = sheets::tried_thrice(b'c');
    say::prefix(
        "S <- R 'x' / 'a' R 'y' / R, R <- [a-c]* on abx",
        &few,
        b"abx",
        2_500,
    );
    say::prefix(
        "S <- R 'x' / 'a' R 'y' / R, R <- [a-c]* on aby",
        &few,
        b"aby",
        2_500,
    );
}

// The inner row is one of its own at each turn of the outer one.
pub(crate) fn rows_in_a_row() {
    let s = sheets::rows_in_a_row();
    say::prefix("S <- ('a'* 'b')* on aabab", &s, b"aabab", 2_500);
    say::prefix("S <- ('a'* 'b')* on aaba", &s, b"aaba", 2_500);
    say::prefix("S <- ('a'* 'b')* on aabab, allowance 13", &s, b"aabab", 13);
}

// A record for each rule and turn, and the root's.
pub(crate) fn rows_of_trees() {
    let line = [b'a'; 125];
    say::whole(
        "A row of 111 turns, 1000 records",
        &sheets::nine_names(),
        page::front(&line, 111),
        2_500,
    );
    say::whole(
        "A row of 125 turns, 1001 records",
        &sheets::eight_names(),
        &line,
        2_500,
    );
}

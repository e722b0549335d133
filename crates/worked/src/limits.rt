// The limits of line, room, working numbers, allowance and open visits, and the order in which they are tested.
use crate::say::Asked;
use crate::{long_lines, say, sheets};

// 8,002 visits are just enough for the longest line.
pub(crate) fn line_length() {
    let s = sheets::letters();
    let line = [b'a'; 4_001];
    let asked = Asked::whole(8_002).lent(long_lines::NUMBERS, say::LARGE_ROOM);
    say::reading(
        "S <- 'a'* on 4000 bytes",
        &[],
        &s,
        page::front(&line, 4_000),
        asked,
    );
    say::reading("S <- 'a'* on 4001 bytes", &[], &s, &line, asked);
}

// A on 7+2 makes 19 visits and stores 25 bytes. The formula then gives 2,048 + 4 x 19 + 2 x 7 x 4 = 2,180.
fn lent_to_a(name: &str, numbers: usize, room: usize) {
    let asked = Asked::prefix(19).lent(numbers, room);
    say::reading(name, &[], &sheets::a(), b"7+2", asked);
}

pub(crate) fn room() {
    lent_to_a("A on 7+2, room 25", 2_180, 25);
    lent_to_a("A on 7+2, room 24", 2_180, 24);
    lent_to_a("A on 7+2, no room", 2_180, 0);
}

pub(crate) fn working_numbers() {
    lent_to_a("A on 7+2, working numbers 2180", 2_180, 25);
    lent_to_a("A on 7+2, working numbers 2179", 2_179, 25);
    lent_to_a("A on 7+2, no working numbers", 0, 25);
}

// For 5,000,000 visits the working numbers are too few here, and are lent in full for a fiftieth of them.
pub(crate) fn allowance() {
    let a = sheets::a();
    say::prefix("A on 7, allowance 0", &a, b"7", 0);
    say::prefix("A on 7, allowance 1", &a, b"7", 1);
    say::prefix("A on 7, allowance 5000000", &a, b"7", 5_000_000);
    say::prefix("A on 7, allowance 5000001", &a, b"7", 5_000_001);
    say::prefix("A on 7, allowance 2^64 - 1", &a, b"7", u64::MAX);
    let asked = Asked::prefix(100_000).lent(say::LARGE, say::LARGE_ROOM);
    say::reading("A on 7+2, allowance 100000", &[], &a, b"7+2", asked);
}

// Of S <- T, T <- 'a' T / (empty) on 169 bytes the most visits are open when the range fails at the line's end: 511, and one
// more for each empty node that stands before the T of S. Before that range 679 visits are made, and two for each of these.
fn right_recursive(name: &str, node: usize, allowance: u64) {
    let line = [b'a'; 169];
    say::prefix(name, &sheets::right_recursive(node), &line, allowance);
}

pub(crate) fn open_visits() {
    right_recursive("511 open visits", 0, 2_500);
    right_recursive("512 open visits", 2, 2_500);
    right_recursive("513 open visits", 3, 2_500);
    // Where the allowance is spent as well, that is named.
    right_recursive("513 open visits, allowance 683", 3, 683);
}

// Too long a line, no allowance and no working numbers: the first of these is named.
fn nothing_lent_to_a(name: &str, line: &[u8], allowance: u64) {
    let asked = Asked::prefix(allowance).lent(0, 0);
    say::reading(name, &[], &sheets::a(), line, asked);
}

pub(crate) fn order() {
    let line = [b'7'; 4_001];
    nothing_lent_to_a("A on 4001 bytes, allowance 0, nothing lent", &line, 0);
    nothing_lent_to_a("A on 7, allowance 0, nothing lent", b"7", 0);
    nothing_lent_to_a("A on 7, allowance 1, nothing lent", b"7", 1);
}

// Lines over 255 bytes: the version goes by the line, and so does the room.
use crate::build::Sheet;
use crate::say::Asked;
use crate::{say, sheets};

// More working numbers than the program lends: enough for all of these lines.
pub(crate) const NUMBERS: usize = 65_536;

// As many visits as the longest of these lines takes.
const ALLOWANCE: u64 = 8_002;

// What is asked with this much lent. Three names stay, for each call says by one of them all that sets it apart: a value in their place is no plainer.
fn prefix(name: &str, sheet: &Sheet, line: &[u8], room: usize) {
    let asked = Asked::prefix(ALLOWANCE).lent(NUMBERS, room);
    say::reading(name, &[], sheet, line, asked);
}

fn whole_within(allowance: u64, name: &str, sheet: &Sheet, line: &[u8], room: usize) {
    let asked = Asked::whole(allowance).lent(NUMBERS, room);
    say::reading(name, &[], sheet, line, asked);
}

fn whole(name: &str, sheet: &Sheet, line: &[u8], room: usize) {
    whole_within(ALLOWANCE, name, sheet, line, room);
}

// The first line of version 2 takes two bytes more, and the longest as many.
pub(crate) fn one_record() {
    let s = sheets::digits();
    let all = [b'7'; 4_000];
    let short = page::front(&all, 255);
    let long = page::front(&all, 256);
    whole("S <- [0-9]* on 255 digits, room 10", &s, short, 10);
    whole("S <- [0-9]* on 256 digits, room 12", &s, long, 12);
    whole("S <- [0-9]* on 256 digits, room 11", &s, long, 11);
    whole(
        "S <- [0-9]* on 4000 digits, allowance 8002",
        &s,
        &all,
        say::LARGE_ROOM,
    );
    whole_within(
        ALLOWANCE - 1,
        "S <- [0-9]* on 4000 digits, allowance 8001",
        &s,
        &all,
        say::LARGE_ROOM,
    );
}

// Three bytes are matched, and stored as the line of 300 has it.
pub(crate) fn short_match() {
    let a = sheets::a();
    let mut line = [b' '; 300];
    line[0] = b'7';
    line[1] = b'+';
    line[2] = b'2';
    prefix("A on 7+2 and 297 blanks, room 33", &a, &line, 33);
    prefix("A on 7+2 and 297 blanks, room 32", &a, &line, 32);
    whole("A on 7+2 and 297 blanks, whole", &a, &line, say::LARGE_ROOM);
}

// 7+7+..7. Two records for each digit: a thousand just fit, and two more are too many.
pub(crate) fn a_thousand_records() {
    let a = sheets::a();
    let mut line = [b'7'; 1_001];
    for pair in line.chunks_exact_mut(2) {
        pair[1] = b'+';
    }
    let fewer = page::front(&line, 999);
    whole("A on 999 bytes, room 7005", &a, fewer, say::LARGE_ROOM);
    whole("A on 999 bytes, room 7004", &a, fewer, say::LARGE_ROOM - 1);
    whole("A on 1001 bytes, room 7005", &a, &line, say::LARGE_ROOM);
}

// The line's end is looked at before the reading gets too deep.
pub(crate) fn looking_to_the_end() {
    let s = sheets::looking_on();
    let line = [b'a'; 300];
    prefix("S <- !('a'* 'b') 'a' S on 300 bytes", &s, &line, 12);
}

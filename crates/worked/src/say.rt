// One line of text for each case: its name, then the numbers of its answer, and a stored reading's bytes.
use crate::build::Sheet;
use page::Page;
use reader::{Ending, Extent, Reading, Refusal};

// What the program for a class lends, as `answers` has it; said again here, since this crate stands beside answers and not on it (crates.txt).
const NUMBERS: usize = 16_384;

const ROOM: usize = 5_005;

// The most that is lent. For 5,000,000 visits the formula asks for 80 MB, more than a stack commonly has. This serves 100,000
// of them, for sheet A on three bytes.
pub(crate) const LARGE: usize = 402_104;

// As long as the longest stored reading.
pub(crate) const LARGE_ROOM: usize = 7_005;

// Which reading is asked for, and what it is lent.
#[derive(Clone, Copy)]
pub(crate) struct Asked {
    extent: Extent,
    allowance: u64,
    numbers: usize,
    room: usize,
}

impl Asked {
    fn usual(extent: Extent, allowance: u64) -> Asked {
        Asked {
            extent,
            allowance,
            numbers: NUMBERS,
            room: ROOM,
        }
    }

    // A prefix reading with the usual lendings.
    pub(crate) fn prefix(allowance: u64) -> Asked {
        Asked::usual(Extent::Prefix, allowance)
    }

    // A whole-line reading with the usual lendings.
    pub(crate) fn whole(allowance: u64) -> Asked {
        Asked::usual(Extent::Whole, allowance)
    }

    // The same reading that is lent so much.
    pub(crate) fn lent(self, numbers: usize, room: usize) -> Asked {
        Asked {
            numbers,
            room,
            ..self
        }
    }
}

// ---- Text.

fn put_numbers(page: &mut Page, numbers: &[u64]) {
    for number in numbers {
        page.put(b' ');
        page.put_number(*number);
    }
}

// Each byte as two hexadecimal digits.
fn put_bytes(page: &mut Page, bytes: &[u8]) {
    for byte in bytes {
        let mut digits = [0; 16];
        let count = io::hex(u64::from(*byte), 2, &mut digits);
        page.put_all(&digits[..count]);
    }
}

// A case's name and the numbers that belong to it, the numbers of its answer, and the bytes, if there are any.
fn say(name: &str, numbers: &[u64], answer: &[u64], bytes: &[u8]) {
    let mut page = Page::blank();
    page.put_all(name.as_bytes());
    put_numbers(&mut page, numbers);
    page.put(b':');
    put_numbers(&mut page, answer);
    if !bytes.is_empty() {
        page.put(b' ');
        put_bytes(&mut page, bytes);
    }
    page.put(b'\n');
    page.send();
}

// ---- Cases.

pub(crate) fn check(name: &str, numbers: &[u64], sheet: &Sheet) {
    let verdict = sheet::check(sheet.bytes());
    say(name, numbers, &sheet::numbers(verdict), &[]);
}

pub(crate) fn report(name: &str, sheet: &Sheet) {
    let found = report::report(sheet.bytes());
    say(name, &[], &report::numbers(found), &[]);
}

// A reading that is lent the front of these working numbers and of this room.
fn read(
    table: &[u8],
    line: &[u8],
    asked: Asked,
    work: &mut [u32],
    room: &mut [u8],
) -> Result<Reading, Refusal> {
    let numbers = asked.numbers.min(work.len());
    let work = &mut work[..numbers];
    let bytes = asked.room.min(room.len());
    let room = &mut room[..bytes];
    reader::read(asked.extent, table, line, asked.allowance, work, room)
}

// The bytes of the reading that is stored; of an answer that stores none 0.
fn stored_length(line: &[u8], answer: Result<Reading, Refusal>) -> usize {
    match answer {
        Ok(
            Reading {
                ending: Ending::Read { records, .. },
                ..
            },
        ) => {
            let version = stored::version_of(line.len());
            // No reading has more records.
            stored::stored_length(version, records.min(1_000) as u32) as usize
        }
        _ => 0,
    }
}

// The same, and what is said of it.
fn say_reading(
    name: &str,
    numbers: &[u64],
    sheet: &Sheet,
    line: &[u8],
    asked: Asked,
    work: &mut [u32],
    room: &mut [u8],
) {
    let answer = read(sheet.bytes(), line, asked, work, room);
    say(
        name,
        numbers,
        &reader::numbers(answer),
        page::front(room, stored_length(line, answer)),
    );
}

// Lends from the usual arrays as long as they are long enough: those for the rest are filled at each call too, and have 25 times as many working numbers.
pub(crate) fn reading(name: &str, numbers: &[u64], sheet: &Sheet, line: &[u8], asked: Asked) {
    if asked.numbers <= NUMBERS && asked.room <= ROOM {
        let mut work = [7; NUMBERS];
        let mut room = [7; ROOM];
        say_reading(name, numbers, sheet, line, asked, &mut work, &mut room);
    } else {
        let mut work = [7; LARGE];
        let mut room = [7; LARGE_ROOM];
        say_reading(name, numbers, sheet, line, asked, &mut work, &mut room);
    }
}

// A prefix reading and a whole-line reading with the usual lendings. Both names stay: a value that names one of them is no
// plainer at each of some seventy calls.
pub(crate) fn prefix(name: &str, sheet: &Sheet, line: &[u8], allowance: u64) {
    reading(name, &[], sheet, line, Asked::prefix(allowance));
}

pub(crate) fn whole(name: &str, sheet: &Sheet, line: &[u8], allowance: u64) {
    reading(name, &[], sheet, line, Asked::whole(allowance));
}

// An answer as text on a page: READ matched visits records, or the code's name, place and visits.
#![tactic(auto)]

ghost use Rattle.std.specs.Prelude.{◌≡◌};
ghost use Rattle.page.specs.Page.{Puts};
ghost use Rattle.reader.specs.Answer.{numbers_of};
ghost use Rattle.answers.specs.Printed.{name_of, next_number, refusal_text, answer_text, Answers};

use page::Page;
use reader::{Reading, Refusal};

// What a line is lent.
const ALLOWANCE: u64 = 2_500;

pub const NUMBERS: usize = 16_384;

pub const ROOM: usize = 5_005;

pub type Numbers = [u32; NUMBERS];

pub type Room = [u8; ROOM];

// The name of a code; no other number has one.
#[tactic(auto, using(crate::proofs::Laws::unnamed), unfolding(crate::specs::Printed::name_of, crate::specs::Printed::names, crate::specs::Quoted::bytes))]
fn name(code: u64) -> &'static [u8]
    ensures { result.now ≡ name_of code }
{
    match code {
        0 => b"READ",
        1 => b"SHORT",
        2 => b"VERSION",
        3 => b"COUNT",
        4 => b"LENGTH",
        5 => b"ROOT",
        6 => b"KIND",
        7 => b"FIELD",
        8 => b"LINE",
        9 => b"ALLOW",
        10 => b"WORK",
        11 => b"EFFORT",
        12 => b"DEEP",
        13 => b"FAIL",
        14 => b"REST",
        15 => b"RECORDS",
        16 => b"ROOM",
        17 => b"LOOP",
        18.. => b"",
    }
}

// A blank and a number.
fn put_next(page: &mut Page, number: u64)
    ensures { Puts page.old (next_number number) page.new }
{
    page.put(b' ');
    page.put_number(number);
}

// A refusal: the code's name, place and visits. A code is a number here, and not an enum, since its callers may give any.
pub fn put_refusal(page: &mut Page, code: u64, place: u64, visits: u64)
    ensures { Puts page.old (refusal_text code place visits) page.new }
{
    page.put_all(name(code));
    put_next(page, place);
    put_next(page, visits);
    page.put(b'\n');
}

// READ, matched, visits and records, or a refusal.
// It makes numbers of the result first, and no match: one list of numbers serves a refusal and a reading alike.
fn put_answer(page: &mut Page, answer: Result<Reading, Refusal>)
    ensures { Puts page.old (answer_text (numbers_of answer)) page.new }
{
    let [code, place, matched, visits, records, _] = reader::numbers(answer);
    if code > 0 {
        return put_refusal(page, code, place, visits);
    }
    page.put_all(name(0));
    put_next(page, matched);
    put_next(page, visits);
    put_next(page, records);
    page.put(b'\n');
}

// Reads a line, whole-line, and puts its answer on the page.
pub fn answer_line(table: &[u8], line: &[u8], work: &mut Numbers, room: &mut Room, page: &mut Page)
    ensures { Answers table.now line.now work.old room.old page.old work.new room.new page.new }
{
    let answer = reader::read_whole(table, line, ALLOWANCE, work, room);
    put_answer(page, answer);
}

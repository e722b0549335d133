// Lines from standard input, and their answers.
ghost use Rattle.std.specs.Prelude.{[], ◌∷◌, ◌≤◌, length as count};
ghost use Rattle.page.specs.Page.{Puts};
ghost use Rattle.lesson.specs.Lines.{kept, last_text, Lengthened, Taken, TakenUnlessFailed};
ghost use Rattle.lesson.specs.Status.{done, status_after, Ends};

use crate::Failure;
use answers::{Numbers, Room};
use arrayvec::ArrayVec;
use page::Page;
use std::io::{Input, Read};

const LF: u8 = b'\n';

// One byte more than the longest line has is kept: the reader refuses a line that is longer.
const LINE: usize = stored::LONGEST_LINE + 1;

type Line = ArrayVec<u8, LINE>;

// A byte that belongs to the line. Of a line that is longer than its place, no more is kept.
fn lengthen(line: &mut Line, byte: u8)
    ensures { Lengthened line.old.items byte line.new.items }
{
    if !line.is_full() {
        line.push(byte);
    }
}

// The line that is begun, and what the reading of a line is lent. The table is passed beside it: in it, each contract would have to say that it stays.
#[derive(Drop)]
struct Lines {
    begun: Line,
    work: Numbers,
    room: Room,
    ghost within: { count begun.items ≤ kept },
}

impl Lines {
    // One byte of the input: LF ends the line and is dropped, any other belongs to it.
    fn take_byte(&mut self, table: &[u8], byte: u8, page: &mut Page)
        ensures { Taken table.now self.old.begun.items (byte ∷ []) page.old self.new.begun.items page.new }
    {
        if byte == LF {
            answers::answer_line(
                table,
                self.begun.as_slice(),
                &mut self.work,
                &mut self.room,
                page,
            );
            self.begun.clear();
        } else {
            lengthen(&mut self.begun, byte);
        }
    }

    // The bytes that one read gave; a write that failed ends the taking. Only at the end of a line is anything written.
    fn take_all(&mut self, table: &[u8], bytes: &[u8], page: &mut Page)
        ensures { TakenUnlessFailed table.now self.old.begun.items bytes.now page.old self.new.begun.items page.new }
    {
        for byte in bytes {
            self.take_byte(table, *byte, page);
            if *byte == LF && page.failed() {
                return;
            }
        }
    }

    // Answers the lines that end in what came.
    fn answer_some(&mut self, table: &[u8], bytes: &[u8]) -> Result<(), Failure> {
        let mut page = Page::blank();
        self.take_all(table, bytes, &mut page);
        crate::print(&mut page)
    }

    // A proved loop has to end, and nothing says that the input does: it reads more often than any run does.
    fn answer_most<I: Read>(&mut self, table: &[u8], input: &mut I) -> Result<(), Failure> {
        let mut bytes = io::buffer();
        for _ in 0..u64::MAX {
            let Ok(n) = input.read(&mut bytes) else {
                return Err(Failure::Input);
            };
            if n == 0 {
                break;
            }
            self.answer_some(table, &bytes[..n])?;
        }
        Ok(())
    }

    // A last line without LF counts if it has a byte.
    fn put_last(&mut self, table: &[u8], page: &mut Page)
        ensures { Puts page.old (last_text table.now self.old.begun.items) page.new }
    {
        if !self.begun.is_empty() {
            answers::answer_line(
                table,
                self.begun.as_slice(),
                &mut self.work,
                &mut self.room,
                page,
            );
        }
    }

    fn answer_last(&mut self, table: &[u8]) -> Result<(), Failure>
        ensures { Ends done (status_after done result) }
    {
        let mut page = Page::blank();
        self.put_last(table, &mut page);
        crate::print(&mut page)
    }
}

// Answers the lines of the input. Where a read fails, a line that was begun has no answer.
pub(crate) fn read_lines<R: Input>(rt: &R, table: &[u8]) -> Result<(), Failure>
    ensures { Ends done (status_after done result) }
{
    let mut input = rt.reader();
    let mut lines = Lines {
        begun: ArrayVec::new(),
        work: [0; answers::NUMBERS],
        room: [0; answers::ROOM],
    };
    lines.answer_most(table, &mut input)?;
    lines.answer_last(table)
}

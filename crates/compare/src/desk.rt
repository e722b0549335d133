// One command: it sets the current table or line, or it is a question, answered by a line of numbers.
use crate::field::Counted;
use crate::{field, fill};
use page::Page;
use reader::Extent;

// The most that a command can set or lend.
const TABLE: usize = 3_000;

const LINE: usize = 4_100;

const NUMBERS: usize = 262_144;

const ROOM: usize = 7_168;

// Why no other command follows.
#[derive(Clone, Copy, Debug, PartialEq, Eq)]
pub(crate) enum Stop {
    Ended,
    Malformed,
}

// The current table and the current line, a stored reading in question, what a reading is lent, and the page of text.
#[derive(Drop)]
pub(crate) struct Desk {
    table: Counted<TABLE>,
    line: Counted<LINE>,
    stored: Counted<ROOM>,
    work: [u32; NUMBERS],
    room: [u8; ROOM],
    page: Page,
}

// What a question for a reading says: how much it lends, and what that is filled with.
#[derive(Clone, Copy)]
struct Question {
    allowance: u64,
    numbers: usize,
    room: usize,
    fill: u8,
}

impl Question {
    fn read() -> Option<Question> {
        Some(Question {
            allowance: field::read_u64()?,
            numbers: field::read_u32()? as usize,
            room: usize::from(field::read_u16()?),
            fill: field::read_letter()?,
        })
    }

    // The six numbers of a reading, then the digests of the room and of the working numbers. None: it lends more than there is.
    fn answer(
        self,
        extent: Extent,
        table: &[u8],
        line: &[u8],
        work: &mut [u32],
        room: &mut [u8],
    ) -> Option<[u64; 8]> {
        if self.numbers > work.len() {
            return None;
        }
        if self.room > room.len() {
            return None;
        }
        let work = &mut work[..self.numbers];
        let room = &mut room[..self.room];
        fill::numbers(work, self.fill);
        fill::bytes(room, self.fill);
        let answer = reader::read(extent, table, line, self.allowance, work, room);
        let [code, place, matched, visits, records, furthest] = reader::numbers(answer);
        Some([
            code,
            place,
            matched,
            visits,
            records,
            furthest,
            fill::digest(room),
            fill::digest(work),
        ])
    }
}

impl Desk {
    pub(crate) fn empty() -> Desk {
        Desk {
            table: Counted::empty(),
            line: Counted::empty(),
            stored: Counted::empty(),
            work: [0; NUMBERS],
            room: [0; ROOM],
            page: Page::blank(),
        }
    }

    // Numbers with a blank between them, and LF.
    fn put_row(&mut self, row: &[u64]) {
        for (i, number) in row.iter().enumerate() {
            if i > 0 {
                self.page.put(b' ');
            }
            self.page.put_number(*number);
        }
        self.page.put(b'\n');
    }

    fn ask_check(&mut self) {
        let row = sheet::numbers(sheet::check(self.table.bytes()));
        self.put_row(&row);
    }

    fn ask_report(&mut self) {
        let row = report::numbers(report::report(self.table.bytes()));
        self.put_row(&row);
    }

    fn ask_reading(&mut self, extent: Extent) -> Option<()> {
        let question = Question::read()?;
        let row = question.answer(
            extent,
            self.table.bytes(),
            self.line.bytes(),
            &mut self.work,
            &mut self.room,
        )?;
        self.put_row(&row);
        Some(())
    }

    fn ask_formed(&mut self) -> Option<()> {
        let rules = field::read_u16()?;
        let line_length = field::read_u16()?;
        self.stored.read()?;
        let well_formed = stored::well_formed(
            self.stored.bytes(),
            u32::from(rules),
            u32::from(line_length),
        );
        self.put_row(&[u64::from(well_formed)]);
        Some(())
    }

    // None: the command is malformed.
    fn command(&mut self, letter: u8) -> Option<()> {
        match letter {
            b'T' => self.table.read(),
            b'L' => self.line.read(),
            b'K' => {
                self.ask_check();
                Some(())
            }
            b'M' => {
                self.ask_report();
                Some(())
            }
            b'P' => self.ask_reading(Extent::Prefix),
            b'W' => self.ask_reading(Extent::Whole),
            b'F' => self.ask_formed(),
            _ => None,
        }
    }

    // Reads one command and does it; the stream ends where no command begins.
    pub(crate) fn turn(&mut self) -> Result<(), Stop> {
        let letter = field::read_letter().ok_or(Stop::Ended)?;
        self.command(letter).ok_or(Stop::Malformed)
    }

    // Writes out what is left on the page, and BAD of a stream that is malformed.
    pub(crate) fn finish(&mut self, stop: Stop) {
        if stop == Stop::Malformed {
            self.page.put_all(b"BAD\n");
        }
        self.page.send();
    }
}

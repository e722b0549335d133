// The prefix and the whole-line reading of a line by a sheet's table.
//
// In go the table, the line, the allowance, working numbers and room for the stored reading. Out comes a Refusal, where the line is turned away before it
// is read, or a Reading: how it ended, the visits made, and the furthest position at which a range was visited. `numbers` gives either as 01's table of
// codes has it: code, place, matched length, visits, records, and the furthest position (specs/Answer, reading_of). No table, line, allowance or buffer is
// asked to be good. A Refusal changes nothing; after a Reading the first working numbers, as many as 01's formula says, are zero, and only one that ended
// with Read has written the room: the stored reading at its front, in the version that the line's length gives.
// The reader relies on the check's promise alone for every node that it visits.
#![tactic(auto)]

ghost use Rattle.std.specs.Prelude.{◌≡◌, true, false, ◌≤◌, [], ◌∷◌, length};
ghost use Rattle.meaning.specs.Reading.{read};
ghost use Rattle.layout.specs.Table.{nodes_of, grammar_of};
ghost use Rattle.empties.specs.Empties.{EmptyNodes};
ghost use Rattle.visits.specs.Words.{furthest_in};
ghost use Rattle.visits.specs.Says.{after_visit};
ghost use Rattle.reader.specs.declared.Refusal.TheVariants.{Sheet};
ghost use Rattle.reader.specs.Answer.{longest_line, most_allowance, code_of, place_of, numbers_ending, numbers_of, is_whole, work_needed, cleared, run_outcome, reading_of, Leaves};
ghost use Rattle.reader.specs.Steps.{Fitting, Startable, Tells, Visiting, Finishable, Finished};

use report::Judgement;
use visits::Given;

// Why a line is not read, 01's codes 1 to 10 and 17.
#[derive(Clone, Copy, Debug, PartialEq, Eq)]
pub enum Refusal {
    Sheet(sheet::Refusal),
    Line,
    Allowance,
    Work,
}

// How a reading ends, 01's codes 0 and 11 to 16.
#[derive(Clone, Copy, Debug, PartialEq, Eq)]
pub enum Ending {
    Read { matched: u64, records: u64 },
    Effort { place: u64 },
    Deep { place: u64 },
    Fail,
    Rest { matched: u64 },
    Records { matched: u64 },
    Room { matched: u64, records: u64 },
}

// What a reading returns: how it ends, the visits made and the furthest position at which a range was visited.
#[derive(Clone, Copy, Debug, PartialEq, Eq)]
pub struct Reading {
    pub ending: Ending,
    pub visits: u64,
    pub furthest: u64,
}

// Which reading is asked for: of as much as matches from the line's beginning, or of the whole line.
#[derive(Clone, Copy, Debug, PartialEq, Eq)]
pub enum Extent {
    Prefix,
    Whole,
}

pub const MOST_ALLOWANCE: u64 = 5000000;

const MOST_RECORDS: u32 = 1000;

// 01's codes of a line that is turned away, past those of the check.
const LINE: u64 = 8;

const ALLOW: u64 = 9;

const WORK: u64 = 10;

// 01's codes of a reading.
const READ: u64 = 0;

const EFFORT: u64 = 11;

const DEEP: u64 = 12;

const FAIL: u64 = 13;

const REST: u64 = 14;

const RECORDS: u64 = 15;

const ROOM: u64 = 16;

impl From<sheet::Refusal> for Refusal {
    ghost from_gives = { λ refusal whole. whole ≡ Sheet refusal };

    fn from(refusal: sheet::Refusal) -> Refusal {
        Refusal::Sheet(refusal)
    }
}

impl Refusal {
    // 01's code.
    pub fn code(self) -> u64
        ensures { result ≡ code_of self }
    {
        match self {
            Refusal::Sheet(refusal) => refusal.code() as u64,
            Refusal::Line => LINE,
            Refusal::Allowance => ALLOW,
            Refusal::Work => WORK,
        }
    }

    // 01's place: the rule or the node at which the check refuses, else 0.
    pub fn place(self) -> u64
        ensures { result ≡ place_of self }
    {
        match self {
            Refusal::Sheet(refusal) => refusal.place() as u64,
            _ => 0,
        }
    }
}

// 01's numbers: code, place, matched, visits, records, and the furthest position.
pub fn numbers(answer: Result<Reading, Refusal>) -> [u64; 6]
    ensures { let n = numbers_of answer in result ≡ n.code ∷ n.place ∷ n.matched ∷ n.visits ∷ n.records ∷ n.furthest ∷ [] }
{
    let reading = match answer {
        Ok(reading) => reading,
        Err(refusal) => return [refusal.code(), refusal.place(), 0, 0, 0, 0],
    };
    let (code, place, matched, records) = match reading.ending {
        Ending::Read { matched, records } => (READ, 0, matched, records),
        Ending::Effort { place } => (EFFORT, place, 0, 0),
        Ending::Deep { place } => (DEEP, place, 0, 0),
        Ending::Fail => (FAIL, 0, 0, 0),
        Ending::Rest { matched } => (REST, matched, matched, 0),
        Ending::Records { matched } => (RECORDS, matched, matched, MOST_RECORDS as u64 + 1),
        Ending::Room { matched, records } => (ROOM, matched, matched, records),
    };
    [
        code,
        place,
        matched,
        reading.visits,
        records,
        reading.furthest,
    ]
}

// What is asked: to read a line by a table, with so many visits at most, to its end or as far as the table matches.
// What is lent to be written, working numbers and room, stays beside it: the contracts say what they hold before and after.
#[derive(Clone, Copy)]
struct Asked<'a> {
    table: &'a [u8],
    line: &'a [u8],
    allowance: u64,
    extent: Extent,
}

impl<'a> Asked<'a> {
    // The use of rule 0 at position 0, which is not itself a visit; what it answers.
    fn start(&self, work: &mut [u32], judged: &Judgement) -> u64
        requires { Startable self.now.table.now self.now.line.now work.old self.now.allowance judged.now.free judged.now.left_recursive }
        ensures numbers { Visiting self.now.allowance (length self.now.line.now) (work_needed self.now.allowance (nodes_of self.now.table.now) (length self.now.line.now)) work.old work.new (after_visit result work.new) }
        ensures tells { Tells self.now.allowance (length self.now.line.now) work.new (after_visit result work.new) (read (grammar_of self.now.table.now) self.now.line.now self.now.allowance) }
    {
        let Asked { table, line, .. } = *self;
        let first = layout::first_node(table) as u64;
        // Answers are kept on a free sheet, one for each node at each position.
        // 0 says that none are kept: a number and no Option, since what is kept is addressed by it, and visits' specs/Given has the 0.
        let each = if judged.free {
            layout::node_count(table) as u64
        } else {
            0
        };
        let given = Given {
            allowance: self.allowance,
            kept_each: each,
            first_node: first,
            growing: judged.left_recursive,
        };
        let mut answer = 0u64;
        visits::no_visits(work);
        visits::read_line(&given, table, line, work, &mut answer);
        answer
    }

    // How the visits ended, by 01's rows 11 to 16 and 0; only a reading writes the room.
    #[tactic(auto, unfolding(crate::specs::Answer::run_outcome))]
    fn finish(&self, work: &[u32], room: &mut [u8], answer: u64) -> Ending
        requires { Finishable (length self.now.line.now) work.now (after_visit answer work.now) × (length self.now.line.now ≤ longest_line) }
        ensures { Finished (is_whole self.now.extent) (length self.now.line.now) work.now (after_visit answer work.now) (numbers_ending result (after_visit answer work.now).made (furthest_in work.now)) room.old room.new }
    {
        let Asked { line, extent, .. } = *self;
        let end = visits::end_of(answer);
        let list = visits::list_of(answer);
        // Of a visit that was refused the list is its code and place in one number.
        if end == visits::STOPPED {
            let place = (list % visits::PLACES) as u64;
            if (list / visits::PLACES) as u64 == EFFORT {
                return Ending::Effort { place };
            }
            return Ending::Deep { place };
        }
        if end == visits::FAILED {
            return Ending::Fail;
        }
        let matched = end as u64;
        if extent == Extent::Whole && matched < line.len() as u64 {
            return Ending::Rest { matched };
        }
        let records = cells::records_of(work, list);
        if MOST_RECORDS < records {
            return Ending::Records { matched };
        }
        let version = stored::version_of(line.len());
        if room.len() < stored::stored_length(version, records) as usize {
            return Ending::Room {
                matched,
                records: records as u64,
            };
        }
        cells::write(work, room, version, list);
        Ending::Read {
            matched,
            records: records as u64,
        }
    }

    // Reads a line that nothing turns away; needed is 01's number of working numbers, and the nodes that may be empty are marked.
    fn read_line(
        &self,
        work: &mut [u32],
        room: &mut [u8],
        needed: usize,
        marks: &[u64; bits::WORDS],
    ) -> Reading
        requires { Fitting self.now.table.now self.now.line.now work.old self.now.allowance × (needed ≡ work_needed self.now.allowance (nodes_of self.now.table.now) (length self.now.line.now)) × EmptyNodes (grammar_of self.now.table.now) marks.now }
        ensures { Leaves (run_outcome (is_whole self.now.extent) (length self.now.line.now) self.now.allowance (read (grammar_of self.now.table.now) self.now.line.now self.now.allowance) (cleared needed work.old) room.old) (numbers_of (Ok result)) work.new room.new }
    {
        let judged = report::judge(self.table, work, marks);
        // The kept answers are cleared on entry only where they are used.
        let kept = if judged.free {
            2048 + 4 * self.allowance as usize
        } else {
            needed
        };
        work[kept..needed].fill(0);
        cells::no_cells(work);
        let answer = self.start(work, &judged);
        let reading = Reading {
            ending: self.finish(work, room, answer),
            visits: visits::visits_made(work) as u64,
            furthest: visits::furthest_visited(work) as u64,
        };
        work[..needed].fill(0);
        reading
    }

    // 01's checks, in 01's order.
    fn read(&self, work: &mut [u32], room: &mut [u8]) -> Result<Reading, Refusal>
        ensures { Leaves (reading_of (is_whole self.now.extent) self.now.table.now self.now.line.now self.now.allowance work.old room.old) (numbers_of result) work.new room.new }
    {
        let Asked {
            table,
            line,
            allowance,
            ..
        } = *self;
        let mut marks = [0u64; bits::WORDS];
        sheet::examine(table, &mut marks).verdict?;
        if stored::LONGEST_LINE < line.len() {
            return Err(Refusal::Line);
        }
        if allowance == 0 || MOST_ALLOWANCE < allowance {
            return Err(Refusal::Allowance);
        }
        let needed = work_needed(allowance as usize, layout::node_count(table), line.len());
        if work.len() < needed {
            return Err(Refusal::Work);
        }
        Ok(self.read_line(work, room, needed, &marks))
    }
}

// 01: "2,048 + 4 x allowance + 2 x n x (L + 1)".
#[tactic(auto, using(crate::proofs::Turning::pairs_most))]
fn work_needed(allowance: usize, nodes: usize, long: usize) -> usize
    requires { (allowance ≤ most_allowance) × ((nodes ≤ 512) × (long ≤ longest_line)) }
    ensures { result ≡ work_needed allowance nodes long }
{
    2048 + 4 * allowance + 2 * (nodes * (long + 1))
}

// The reading that is asked for, of a line that is lent so much.
pub fn read(
    extent: Extent,
    table: &[u8],
    line: &[u8],
    allowance: u64,
    work: &mut [u32],
    room: &mut [u8],
) -> Result<Reading, Refusal>
    ensures { Leaves (reading_of (is_whole extent) table.now line.now allowance work.old room.old) (numbers_of result) work.new room.new }
{
    let asked = Asked {
        table,
        line,
        allowance,
        extent,
    };
    asked.read(work, room)
}

// The prefix reading: the match may end before the line does.
pub fn read_prefix(
    table: &[u8],
    line: &[u8],
    allowance: u64,
    work: &mut [u32],
    room: &mut [u8],
) -> Result<Reading, Refusal>
    ensures { Leaves (reading_of false table.now line.now allowance work.old room.old) (numbers_of result) work.new room.new }
{
    read(Extent::Prefix, table, line, allowance, work, room)
}

// The whole-line reading.
pub fn read_whole(
    table: &[u8],
    line: &[u8],
    allowance: u64,
    work: &mut [u32],
    room: &mut [u8],
) -> Result<Reading, Refusal>
    ensures { Leaves (reading_of true table.now line.now allowance work.old room.old) (numbers_of result) work.new room.new }
{
    read(Extent::Whole, table, line, allowance, work, room)
}

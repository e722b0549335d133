// The top of the house: the functions that C, Rust and others call, and what a teacher can rely on.
//
// Each function asks nothing of its caller, writes its numbers into an answer that it is lent, and states the final contents of all
// that it is lent. To C a slice is two arguments, a pointer and a length, and an answer is a pointer.
//
// What a reader must believe: specs/Demands (what the three demands say, over the public reading's definition alone) and specs/Face
// (which numbers stand where in an answer).
// What is proved of it:
//   proofs/Demand1      every call is answered by exactly one row of 01's table of codes, with that row's numbers and buffers
//   proofs/Rows         the same row by row: each code comes back exactly when 01 says
//   proofs/Demand2      match, tree, visits and furthest are those of document 003's rules, match and tree also where every rule becomes live; no call makes
//                       more visits than are allowed
//   proofs/Demand3      free sheets: the ceiling on visits, never EFFORT with that allowance, and the plain rules' answer
//   proofs/StandIns     one outcome alone meets demand 2
//   proofs/Allowance    a line is read alike with every allowance from its visits on, and refused for effort with every smaller one
//   proofs/Stored       what a reading leaves in the room is well formed, and the rules' tree is read back from it
//   proofs/Repetitions  in an accepted table a repetition's child never matches without consuming, and rep.3 is used in no reading
//   proofs/Worked       01's worked lines that are marked P
//   proofs/Face         a second call's answer equals the first's; what the report calls free is free
#![tactic(auto)]

ghost use Rattle.std.specs.Prelude.{◌≡◌, true, false};
ghost use Rattle.reader.specs.Answer.{reading_of};
ghost use Rattle.koskorbelu.specs.Face.{check_numbers, LeavesReport, LeavesReading};

// Whether the table is a sheet: code, place.
#[tactic(auto, unfolding(crate::specs::Face::check_numbers))]
#[unsafe(no_mangle)]
pub extern "C" fn kos_check(table: &[u8], answer: &mut [u64; 2])
    ensures { answer.new ≡ check_numbers table.now }
{
    *answer = sheet::numbers(sheet::check(table));
}

// The report on a table: code, place, the rules that may be empty, the left-recursive ones, how many of them, the lowest
// (64 if there is none), and 1 if the sheet is free.
#[unsafe(no_mangle)]
pub extern "C" fn kos_report(table: &[u8], answer: &mut [u64; 7])
    ensures { LeavesReport table.now answer.new }
{
    *answer = report::numbers(report::report(table));
}

// How far the sheet matches from a line's beginning: code, place, matched, visits, records, furthest; on READ the tree is
// stored in the room.
#[tactic(auto, using(crate::proofs::Face::read_written))]
#[unsafe(no_mangle)]
pub extern "C" fn kos_read_prefix(
    table: &[u8],
    line: &[u8],
    allowance: u64,
    work: &mut [u32],
    room: &mut [u8],
    answer: &mut [u64; 6],
)
    ensures { LeavesReading (reading_of false table.now line.now allowance work.old room.old) answer.new work.new room.new }
{
    *answer = reader::numbers(reader::read_prefix(table, line, allowance, work, room));
}

// The same, where the whole line has to match.
#[tactic(auto, using(crate::proofs::Face::read_written))]
#[unsafe(no_mangle)]
pub extern "C" fn kos_read_whole(
    table: &[u8],
    line: &[u8],
    allowance: u64,
    work: &mut [u32],
    room: &mut [u8],
    answer: &mut [u64; 6],
)
    ensures { LeavesReading (reading_of true table.now line.now allowance work.old room.old) answer.new work.new room.new }
{
    *answer = reader::numbers(reader::read_whole(table, line, allowance, work, room));
}

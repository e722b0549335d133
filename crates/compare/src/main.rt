// Answers a stream of commands on standard input, a line of numbers for each question. A stream that is malformed ends in BAD.
#![tactic(auto)]

mod desk;
mod field;
mod fill;

use desk::{Desk, Stop};

// A proved loop has to end, and nothing says that the stream does: no run uses up so many turns.
fn answer_all(desk: &mut Desk) -> Stop {
    for _ in 0..u64::MAX {
        if let Err(stop) = desk.turn() {
            return stop;
        }
    }
    Stop::Ended
}

fn main() {
    let mut desk = Desk::empty();
    let stop = answer_all(&mut desk);
    desk.finish(stop);
}

// Sheets in which some rules are left-recursive and others are not: only the former become live.
use crate::build::Sheet;
use crate::{say, sheets};

// Rule 0 is not left-recursive and uses a rule that is, where it stands itself.
pub(crate) fn rule_0_above() {
    let l = sheets::above();
    say::report("L <- S '.' / D, report", &l);
    say::prefix("L <- S '.' / D on 7+2.", &l, b"7+2.", 2_500);
    say::prefix("L <- S '.' / D on 7", &l, b"7", 2_500);
    say::prefix("L <- S '.' / D on 7+2., allowance 23", &l, b"7+2.", 23);
    say::prefix("L <- S '.' / D on 7+2., allowance 22", &l, b"7+2.", 22);
}

// Two rules that each begin with the other, and one below them.
pub(crate) fn indirect() {
    let a = sheets::indirect();
    say::report("A <- B 'x' / 'y', report", &a);
    say::prefix("A <- B 'x' / 'y' on yxx", &a, b"yxx", 2_500);
    say::prefix("A <- B 'x' / 'y' on zx", &a, b"zx", 2_500);
}

fn report_and_line(report: &str, line: &str, sheet: &Sheet) {
    say::report(report, sheet);
    say::prefix(line, sheet, b"aa", 2_500);
}

// A rule behind what may match nothing; in the last sheet it may not.
pub(crate) fn hidden() {
    report_and_line(
        "S behind 'x'?, report",
        "S behind 'x'? on aa",
        &sheets::behind_an_option(),
    );
    report_and_line(
        "S behind !'x', report",
        "S behind !'x' on aa",
        &sheets::behind_a_not(),
    );
    report_and_line(
        "S behind 'x'*, report",
        "S behind 'x'* on aa",
        &sheets::behind_a_repetition(),
    );
    report_and_line(
        "S behind U <- 'x'?, report",
        "S behind U <- 'x'? on aa",
        &sheets::behind_a_rule(),
    );
    report_and_line(
        "S behind U <- 'x', report",
        "S behind U <- 'x' on aa",
        &sheets::behind_a_byte(),
    );
}

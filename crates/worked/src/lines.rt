// The worked lines.
ghost use Rattle.std.specs.Prelude.{◌≤◌, ◌<◌};

use crate::build::Sheet;
use crate::{say, sheets};

pub(crate) fn sheet_a() {
    let a = sheets::a();
    say::check("A, check", &[], &a);
    say::report("A, report", &a);
    say::prefix("A on 7+2", &a, b"7+2", 2_500);
    say::whole("A on 7+2, whole", &a, b"7+2", 2_500);
    say::prefix("A on 7+2, allowance 19", &a, b"7+2", 19);
    say::prefix("A on 7+2, allowance 18", &a, b"7+2", 18);
    say::prefix("A on 7", &a, b"7", 2_500);
    say::prefix("A on an empty line", &a, b"", 2_500);
    say::prefix("A on +", &a, b"+", 2_500);
    say::prefix("A on 7+", &a, b"7+", 2_500);
    say::whole("A on 7+, whole", &a, b"7+", 2_500);
}

pub(crate) fn sheet_b() {
    let b = sheets::b();
    say::check("B, check", &[], &b);
    say::report("B, report", &b);
    say::prefix("B on 1,5", &b, b"1,5", 2_500);
    // The bound on the visits of a free sheet: 2 x nodes x (line's length + 1) + 1.
    say::prefix("B on 1,5, allowance 49", &b, b"1,5", 49);
    say::prefix("B on 1", &b, b"1", 2_500);
    say::whole("B on 1,5, whole", &b, b"1,5", 2_500);
    say::whole("B on 1.5, whole", &b, b"1.5", 2_500);
    say::whole("B on ,5, whole", &b, b",5", 2_500);
    say::whole(
        "B turned round on 1,5",
        &sheets::turned_round(),
        b"1,5",
        2_500,
    );
}

// A sheet's report, and how it reads 1,5 and 1.
fn report_and_lines(report: &str, pair: &str, single: &str, sheet: &Sheet) {
    say::report(report, sheet);
    say::prefix(pair, sheet, b"1,5", 2_500);
    say::prefix(single, sheet, b"1", 2_500);
}

// A left-recursive rule takes nothing from a sheet that never uses it. Wherever it is used, the sheet isn't free.
pub(crate) fn unused_rules() {
    report_and_lines(
        "B with a rule unused, report",
        "B with a rule unused on 1,5",
        "B with a rule unused on 1",
        &sheets::unused(),
    );
    report_and_lines(
        "B with rule 2 behind a not, report",
        "B with rule 2 behind a not on 1,5",
        "B with rule 2 behind a not on 1",
        &sheets::denied(),
    );
    report_and_lines(
        "B with rule 2 second, report",
        "B with rule 2 second on 1,5",
        "B with rule 2 second on 1",
        &sheets::second(),
    );
    report_and_lines(
        "B with rule 2 repeated, report",
        "B with rule 2 repeated on 1,5",
        "B with rule 2 repeated on 1",
        &sheets::repeated(),
    );
}

pub(crate) fn other_sheets() {
    let s = sheets::not_itself();
    say::report("S <- !S 'a', report", &s);
    say::prefix("S <- !S 'a' on a", &s, b"a", 2_500);
    let e = sheets::both_sides();
    say::report("E, report", &e);
    say::whole("E on 1+2+3", &e, b"1+2+3", 2_500);
    let sum = sheets::difference();
    say::report("Sum, report", &sum);
    say::whole("Sum on 9-3-2", &sum, b"9-3-2", 2_500);
}

fn doubling_of(name: &str, rules: usize)
    requires { (0 < rules) × (rules ≤ 64) }
{
    say::prefix(name, &sheets::doubling(rules), b"", 2_500);
}

pub(crate) fn doubling() {
    doubling_of("Nine rules that double", 9);
    doubling_of("Ten rules that double", 10);
}

// Repetitions of nothing: refused wherever they stand, before anything of the line is looked at.
use crate::say::Asked;
use crate::{say, sheets};

pub(crate) fn kilowatts() {
    let maybe = sheets::kilowatts_or_nothing();
    say::check("('kW'?)*, check", &[], &maybe);
    say::report("('kW'?)*, report", &maybe);
    say::prefix("('kW'?)* on kW", &maybe, b"kW", 2_500);
    say::whole("('kW'?)* on kW, whole", &maybe, b"kW", 2_500);
    // Too long a line, no allowance and nothing lent: the table is refused all the same.
    say::reading(
        "('kW'?)* on 4001 bytes, allowance 0, nothing lent",
        &[],
        &maybe,
        &[b'k'; 4_001],
        Asked::prefix(0).lent(0, 0),
    );
    say::prefix("'kW'* on kWkW", &sheets::kilowatts(), b"kWkW", 2_500);
}

// What may be empty only by way of rules, and what is not although two rules need each other.
pub(crate) fn over_rules() {
    say::check(
        "Over a rule empty by left recursion, check",
        &[],
        &sheets::over_left_recursion(),
    );
    say::check(
        "Over two rules empty by each other, check",
        &[],
        &sheets::over_two_rules(),
    );
    let needs = sheets::over_two_needs();
    say::check(
        "Over two rules that only need each other, check",
        &[],
        &needs,
    );
    say::prefix(
        "Over two rules that only need each other on a",
        &needs,
        b"a",
        2_500,
    );
}

pub(crate) fn over_nodes() {
    say::check("Over a not, check", &[], &sheets::over_a_not());
    say::check(
        "Over a repetition, check",
        &[],
        &sheets::over_a_repetition(),
    );
    say::check("Never used, check", &[], &sheets::never_used());
}

// The lower of two is named; but a kind or a field that is wrong at a higher node goes first.
pub(crate) fn order() {
    let mut two = sheets::two_of_them();
    say::check("Two of them, check", &[], &two);
    two.put_fields(2, 7, 0, 0);
    say::check("One, then kind 7, check", &[], &two);
    two.put_fields(2, 5, 2, 0);
    say::check("One, then a field wrong, check", &[], &two);
}

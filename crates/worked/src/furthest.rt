// Sheets on which ranges are visited beyond the match, short of it, or not.
use crate::say::Asked;
use crate::{say, sheets};

// What a not looks at counts.
pub(crate) fn looking_ahead() {
    let s = sheets::looking_ahead();
    say::prefix("S <- 'a' !('b' 'c') on a", &s, b"a", 2_500);
    say::prefix("S <- 'a' !('b' 'c') on ab", &s, b"ab", 2_500);
    say::prefix("S <- 'a' !('b' 'c') on abc", &s, b"abc", 2_500);
    say::prefix("S <- 'a' !('b' 'c') on abd", &s, b"abd", 2_500);
    say::whole("S <- 'a' !('b' 'c') on ab, whole", &s, b"ab", 2_500);
}

// With six visits 'c' is visited at 2, and with five it is refused there. With nothing lent the call is turned away, and no range
// is visited.
pub(crate) fn refused() {
    let s = sheets::looking_ahead();
    say::prefix("S <- 'a' !('b' 'c') on abd, allowance 6", &s, b"abd", 6);
    say::prefix("S <- 'a' !('b' 'c') on abd, allowance 5", &s, b"abd", 5);
    say::prefix("S <- 'a' !('b' 'c') on abd, allowance 4", &s, b"abd", 4);
    say::prefix("S <- 'a' !('b' 'c') on abd, allowance 0", &s, b"abd", 0);
    say::reading(
        "S <- 'a' !('b' 'c') on abd, allowance 6, nothing lent",
        &[],
        &s,
        b"abd",
        Asked::prefix(6).lent(0, 0),
    );
}

// R is kept, then come ranges at its end and at 0, then R again.
pub(crate) fn kept_answers() {
    let s = sheets::kept();
    say::report("R kept, report", &s);
    say::prefix("R kept, on abd", &s, b"abd", 2_500);
    say::prefix("R kept, on abc", &s, b"abc", 2_500);
    say::prefix("R kept, on ad", &s, b"ad", 2_500);
    say::prefix("R kept, on b", &s, b"b", 2_500);
}

// The last attempt looks further than the match and does not grow.
pub(crate) fn attempts() {
    let s = sheets::growing();
    say::prefix("S <- S 'b' 'c' / 'a' on ab", &s, b"ab", 2_500);
    say::prefix("S <- S 'b' 'c' / 'a' on abd", &s, b"abd", 2_500);
    say::prefix("S <- S 'b' 'c' / 'a' on abcbd", &s, b"abcbd", 2_500);
}

// A match's end is further than its ranges, and without a range there is 0.
pub(crate) fn few_ranges() {
    let letter = sheets::letter();
    say::whole("S <- 'a' on ab, whole", &letter, b"ab", 2_500);
    let nothing = sheets::nothing();
    say::whole("S <- () on ab, whole", &nothing, b"ab", 2_500);
    say::prefix("S <- () on ab", &nothing, b"ab", 2_500);
    let never = sheets::never();
    say::prefix("S <- !() on ab", &never, b"ab", 2_500);
}

// The line's end is looked at before the reading gets too deep.
pub(crate) fn too_deep() {
    let s = sheets::looking_on();
    let line = [b'a'; 255];
    say::prefix("S <- !('a'* 'b') 'a' S on 255 bytes", &s, &line, 2_500);
    say::prefix(
        "S <- !('a'* 'b') 'a' S on 255 bytes, allowance 1000",
        &s,
        &line,
        1_000,
    );
    say::prefix(
        "S <- !('a'* 'b') 'a' S on 255 bytes, allowance 100",
        &s,
        &line,
        100,
    );
}

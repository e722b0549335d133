// The stored reading: a tree as bytes, and whether bytes are such a reading.
//
// specs/Stored says what the bytes of a tree are and specs/WellFormed which bytes are well formed, both in document 01's words and over
// the width of a position: one byte in version 1, two in version 2, and the version is the width. specs/Version says which version a line
// gives, by its length alone. put_head and put_record write it piece by piece, each over what stands in the room; well_formed judges any
// slice, however long, with scratch of its own.
// proofs/Written shows that what is stored of a tree whose spans nest (specs/Nested) is well formed; proofs/OneTree that well-formed bytes
// are stored of exactly one tree, which tree_of (specs/ReadBack) reads back from them; proofs/Versions that each version is well formed only
// for its lines.
#![tactic(auto)]

ghost use Rattle.std.specs.Prelude.{◌≡◌, ℕ, ◌+◌, ◌*◌, ◌<◌, ◌≤◌, [], ◌&&◌, length, MatchOption};
ghost use Rattle.std.proofs.lemmas.List.Edits.{sets};
ghost use Rattle.stored.specs.Version.{version_of};
ghost use Rattle.stored.specs.Stored.{in_bytes, record_size, record_bytes, stored_length, head_bytes};
ghost use Rattle.stored.specs.WellFormed.{number_at, records_at, in_range, all_in_range, takes, goes, only_last, well_formed_of, is_well_formed};
ghost use Rattle.stored.specs.Scratch.{spans_of, left_of, record_of, IsRecord, head_agrees};

// No slice whose length stands in two bytes has more records.
const MOST_SPANS: usize = 13106;

// No longer line is read, and nothing is well formed for one.
pub const LONGEST_LINE: usize = 4000;

// The longest line whose positions stand in one byte.
const LONGEST_IN_ONE_BYTE: usize = 255;

// The version that a line of so many bytes gives: the bytes of a position. It is a number and no enum, since what is promised of stored bytes is said over that number.
#[tactic(auto, unfolding(crate::specs::Version::version_of))]
pub fn version_of(line_length: usize) -> usize
    ensures is { result ≡ version_of line_length }
    ensures widths { (0 < result) × (result ≤ 2) }
{
    if line_length <= LONGEST_IN_ONE_BYTE {
        1
    } else {
        2
    }
}

// The bytes of a record, with so many to a position.
pub fn record_size(width: usize) -> usize
    requires { width ≤ 2 }
    ensures { result ≡ record_size width }
{
    3 + 2 * width
}

// The bytes of a stored reading with so many records.
pub fn stored_length(width: usize, records: u32) -> u32
    requires { (width ≤ 2) × (records < 65536) }
    ensures { result ≡ stored_length width records }
{
    5 + record_size(width) as u32 * records
}

// Writes a number in one or two bytes, the highest first. Copying the last `width` of them by `copy_from_slice` makes a long sum's reading 215,117 instructions, where so it is 205,133.
// The bounds of the width are asked of a number: the public functions promise over it, and a struct for it would be made in each of them.
#[tactic(auto, using(crate::proofs::Bytes::put_one, crate::proofs::Bytes::put_two))]
fn put_number(room: &mut [u8], at: usize, width: usize, n: u32)
    requires { (at + width ≤ length room.old) × ((0 < width) × (width ≤ 2)) }
    ensures { room.new ≡ sets room.old at (in_bytes width n) }
{
    let [_, _, high, low] = n.to_be_bytes();
    if width == 1 {
        room[at] = low;
    } else {
        room[at] = high;
        room[at + 1] = low;
    }
}

// Writes a record from at on, and says where it ends.
#[tactic(auto, using(crate::proofs::Bytes::record_put))]
pub fn put_record(
    room: &mut [u8],
    width: usize,
    at: usize,
    rule: u32,
    start: u32,
    end: u32,
    number: u32,
) -> usize
    requires { (at + record_size width ≤ length room.old) × ((0 < width) × (width ≤ 2)) }
    ensures { (result ≡ at + record_size width) × (room.new ≡ sets room.old at (record_bytes width rule start end number)) }
{
    put_number(room, at, 1, rule);
    put_number(room, at + 1, width, start);
    put_number(room, at + 1 + width, width, end);
    put_number(room, at + 1 + width + width, 2, number);
    at + 1 + width + width + 2
}

// Writes version, length and record count at the room's front.
#[tactic(auto, using(crate::proofs::Bytes::head_put))]
pub fn put_head(room: &mut [u8], width: usize, records: u32)
    requires { ((5 ≤ length room.old) × (records < 65536)) × ((0 < width) × (width ≤ 2)) }
    ensures { room.new ≡ sets room.old 0 (head_bytes width records) }
{
    put_number(room, 0, 1, width as u32);
    put_number(room, 1, 2, stored_length(width, records));
    put_number(room, 3, 2, records);
}

// The number in one or two bytes from at on.
// The width is a number with its bounds, as in put_number.
#[tactic(auto, using(crate::proofs::Goes::number_one, crate::proofs::Goes::number_two))]
fn number_at(bytes: &[u8], at: usize, width: usize) -> u16
    requires { (at + width ≤ length bytes.now) × ((0 < width) × (width ≤ 2)) }
    ensures { result ≡ number_at width bytes.now at }
{
    if width == 1 {
        u16::from(bytes[at])
    } else {
        u16::from_be_bytes([bytes[at], bytes[at + 1]])
    }
}

// From where to where in the line.
#[derive(Clone, Copy, Default)]
struct Span {
    start: u16,
    end: u16,
}

#[derive(Clone, Copy)]
struct Record {
    rule: u8,
    span: Span,
    children: u16,
}

// The record from at on.
// The width is a number with its bounds, as in put_number.
#[tactic(auto, unfolding(crate::specs::WellFormed::record_at))]
fn record_at(bytes: &[u8], at: usize, width: usize) -> Record
    requires { (at + record_size width ≤ length bytes.now) × ((0 < width) × (width ≤ 2)) }
    ensures { IsRecord width bytes.now at result }
{
    Record {
        rule: bytes[at],
        span: Span {
            start: number_at(bytes, at + 1, width),
            end: number_at(bytes, at + 1 + width, width),
        },
        children: number_at(bytes, at + 1 + width + width, 2),
    }
}

impl Record {
    // Whether the rule and the span are of so many rules and a line of so many bytes.
    fn in_range(self, rules: u32, line_length: u32) -> bool
        ensures { result ≡ in_range rules line_length (record_of self) }
    {
        u32::from(self.rule) < rules
            && self.span.start <= self.span.end
            && u32::from(self.span.end) <= line_length
    }
}

// Takes a record's children from the newest spans: how many are left, or none for a fault.
fn take_children(spans: &[Span], parent: Record) -> Option<usize>
    ensures taken { left_of spans.now result ≡ takes parent.children parent.span.start parent.span.end (spans_of spans.now) }
    ensures within { MatchOption result Unit (λ left. left ≤ length spans.now) }
{
    let children = usize::from(parent.children);
    // As many records have none: the loop is not begun for them.
    if children == 0 {
        return Some(spans.len());
    }
    // No `checked_sub`: with it a record that has children takes longer (docs/SPEED.md).
    if spans.len() < children {
        return None;
    }
    let left = spans.len() - children;
    let mut bound = parent.span.end;
    for child in spans[left..].iter().rev() {
        if bound < child.end || child.start < parent.span.start {
            return None;
        }
        bound = child.start;
    }
    Some(left)
}

// Goes through the records, from the first to the last, with the spans not yet taken, the newest last. They lie in the call itself, so nothing is
// allocated.
// An array with its count beside it. In an ArrayVec with `truncate`, a call of the library that blanks what was taken, 1,000 records took 1.7 to 2.6 times as long,
// with `pop` for each child, or with the count in a struct of our own, 1.1 to 1.4 times (docs/SPEED.md).
// The width is a constant of the code, so that it is not asked for at each number of each record.
fn go_through<const WIDTH: usize>(
    bytes: &[u8],
    rules: u32,
    line_length: u32,
    records: usize,
) -> bool
    requires room { (5 + record_size WIDTH * records ≤ length bytes.now) × (records ≤ 13106) }
    requires widths { (0 < WIDTH) × (WIDTH ≤ 2) }
    ensures { result ≡ (all_in_range rules line_length (records_at WIDTH bytes.now 5 records) && only_last (goes (records_at WIDTH bytes.now 5 records) [])) }
{
    let mut spans = [Span::default(); MOST_SPANS];
    let mut untaken = 0;
    for k in 0..records {
        let record = record_at(bytes, 5 + record_size(WIDTH) * k, WIDTH);
        if !record.in_range(rules, line_length) {
            return false;
        }
        let Some(left) = take_children(&spans[..untaken], record) else {
            return false;
        };
        spans[left] = record.span;
        untaken = left + 1;
    }
    untaken == 1
}

// Whether the head has this version, and the length and the record count that the slice has.
// The width is a number with its bounds, as in put_number.
fn head_agrees(bytes: &[u8], width: usize) -> bool
    requires { (5 ≤ length bytes.now) × ((0 < width) × (width ≤ 2)) }
    ensures { result ≡ head_agrees width bytes.now }
{
    let length = usize::from(number_at(bytes, 1, 2));
    let records = u32::from(number_at(bytes, 3, 2));
    usize::from(bytes[0]) == width
        && length == bytes.len()
        && stored_length(width, records) as usize == length
        && 0 < records
}

// Whether the bytes are well formed, with so many bytes to a position. No slice whose length stands in two bytes has more than 13,106 records.
// The width is a number with its bounds, as in put_number.
fn well_formed_by(bytes: &[u8], width: usize, rules: u32, line_length: u32) -> bool
    requires { (0 < width) × (width ≤ 2) }
    ensures { result ≡ well_formed_of width rules line_length bytes.now }
{
    if bytes.len() < 5 || !head_agrees(bytes, width) {
        return false;
    }
    let records = usize::from(number_at(bytes, 3, 2));
    if width == 1 {
        go_through::<1>(bytes, rules, line_length, records)
    } else {
        go_through::<2>(bytes, rules, line_length, records)
    }
}

// Whether a stored reading is well formed for so many rules and a line of so many bytes: each version only for its lines.
pub fn well_formed(stored: &[u8], rules: u32, line_length: u32) -> bool
    ensures { result ≡ is_well_formed rules line_length stored.now }
{
    let long = line_length as usize;
    long <= LONGEST_LINE && well_formed_by(stored, version_of(long), rules, line_length)
}

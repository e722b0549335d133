// Trees in lent working numbers, with saturated counts, and the writer of the stored reading.
//
// Cells of four words stand from word 2048 on and are only added. A list of trees is a number: 0 for none, or 1 + its cell. A cell is one
// tree over the list of its children, or two lists joined, and holds how many records and how many trees its list has, both at most
// 1,001: joined twice, a list doubles, so a plain count would not fit. Words 2045 and 2047 hold the two counts of list 0. They are words and
// no boxes, since all that a reading uses is lent and nothing is allocated.
// specs/Cells says which trees a list stands for, as a function of the words, and specs/Cell which a cell stands for, as the code reads it;
// specs/Arena what is kept true (Arena) and what making a list leaves (Made). proofs/Frame has the laws that a caller cites: where the words
// of the cells are the same every list is, so after what is written below word 2045.
#![tactic(auto)]

ghost use Rattle.std.specs.Prelude.{◌≡◌, ℕ, ◌+◌, ◌*◌, ◌<◌, ◌≤◌, [], ◌∷◌, length};
ghost use Rattle.std.proofs.lemmas.List.Edits.{sets};
ghost use Rattle.meaning.specs.Grammar.{no_trees, tree, ◌⋈◌};
ghost use Rattle.stored.specs.Stored.{records_of, number_of, record_size, stored_length, with_stored};
ghost use Rattle.cells.specs.Cells.{cells, records_from, mark, saturated, trees_at, with_cell, with_tree, with_join, joined, join_of, Wrote};
ghost use Rattle.cells.specs.Arena.{Arena, Made};
ghost use Rattle.cells.specs.Cell.{stands_for, IsBelow};

// Where the cells start.
const CELLS: usize = 2048;

// The words of the cell that list 0 would have, before the first. Its two counts do stand there.
const FIRST_OF: usize = 2044;

const RECORDS_OF: usize = 2045;

const TREES_OF: usize = 2047;

// A count goes no further.
const MOST_COUNTED: u32 = 1001;

// What is packed in the second of a tree's cell, which is at least MARK: rule, start and end in 6, 12 and 12 bits.
const MARK: u32 = 1073741824;

const RULE: u32 = 16777216;

const START: u32 = 4096;

// A list of trees, and the number of cells in use.
#[derive(Clone, Copy, Debug, PartialEq, Eq)]
pub struct Held {
    pub list: u32,
    pub top: u32,
}

// Makes ready for the first cell: list 0 has no records and no trees.
pub fn no_cells(work: &mut [u32])
    requires { cells ≤ length work.old }
    ensures words { work.new ≡ sets work.old records_from (0 ∷ 0 ∷ 0 ∷ []) }
    ensures arena { Arena work.new 0 }
{
    work[RECORDS_OF..CELLS].fill(0);
}

// Word after word: by one `copy_from_slice` a long sum's reading takes 211,029 instructions, where so it takes 205,133.
fn put_cell(work: &mut [u32], top: u32, first: u32, second: u32, records: u32, trees: u32)
    requires { cells + 4 * top + 3 < length work.old }
    ensures { work.new ≡ with_cell work.old top first second records trees }
{
    let at = CELLS + 4 * top as usize;
    work[at] = first;
    work[at + 1] = records;
    work[at + 2] = second;
    work[at + 3] = trees;
}

// How many records a list has, at most 1,001.
// `work`, `top` and Arena are no struct with methods, here and below: this, no_cells, put_tree, join and write are public, and their parameters may not change.
pub fn records_of(work: &[u32], list: u32) -> u32
    requires { Arena work.now list }
    ensures { result ≡ saturated (records_of (trees_at work.now list)) }
{
    work[RECORDS_OF + 4 * list as usize]
}

// How many trees a list has, at most 1,001.
// `work` and Arena are apart, as in records_of.
fn trees_of(work: &[u32], list: u32) -> u32
    requires { Arena work.now list }
    ensures { result ≡ saturated (number_of (trees_at work.now list)) }
{
    work[TREES_OF + 4 * list as usize]
}

// A cell: one tree over the list of its children, or two lists joined.
#[derive(Clone, Copy)]
enum Cell {
    Tree {
        rule: u32,
        start: u32,
        end: u32,
        children: u32,
    },
    Join {
        left: u32,
        right: u32,
    },
}

// The cell of a list that is not empty.
// `work` and Arena are apart, as in records_of.
fn cell_at(work: &[u32], list: u32) -> Cell
    requires { Arena work.now list × (0 < list) }
    ensures trees { stands_for work.now result ≡ trees_at work.now list }
    ensures below { IsBelow list result }
{
    let at = FIRST_OF + 4 * list as usize;
    let first = work[at];
    let second = work[at + 2];
    if MARK <= second {
        Cell::Tree {
            rule: second / RULE % 64,
            start: second / START % START,
            end: second % START,
            children: first,
        }
    } else {
        Cell::Join {
            left: first,
            right: second,
        }
    }
}

// Makes the list top + 1: one tree.
pub fn put_tree(work: &mut [u32], top: u32, rule: u32, start: u32, end: u32, children: u32)
    requires arena { Arena work.old top × (children ≤ top) }
    requires room { (cells + 4 * top + 3 < length work.old) × (top + 1 < mark) }
    requires small { (rule < 64) × ((start < 4096) × (end < 4096)) }
    ensures words { work.new ≡ with_tree work.old top rule start end children }
    ensures made { Made work.old work.new top (top + 1) (top + 1) (tree rule start end (trees_at work.old children) no_trees) }
{
    let records = (records_of(work, children) + 1).min(MOST_COUNTED);
    let packed = MARK + rule * RULE + start * START + end;
    put_cell(work, top, children, packed, records, 1);
}

// Joins two lists that are not empty, as the list top + 1.
// `work`, `top` and Arena are apart, as in join.
fn put_join(work: &mut [u32], top: u32, left: u32, right: u32)
    requires arena { Arena work.old top × ((left ≤ top) × (right ≤ top)) }
    requires room { (cells + 4 * top + 3 < length work.old) × (top + 1 < mark) }
    ensures { work.new ≡ with_join work.old top left right }
{
    let records = (records_of(work, left) + records_of(work, right)).min(MOST_COUNTED);
    let trees = (trees_of(work, left) + trees_of(work, right)).min(MOST_COUNTED);
    put_cell(work, top, left, right, records, trees);
}

// Joins two lists; no cell is made where a side is empty.
pub fn join(work: &mut [u32], top: u32, left: u32, right: u32) -> Held
    requires arena { Arena work.old top × ((left ≤ top) × (right ≤ top)) }
    requires room { (cells + 4 * top + 3 < length work.old) × (top + 1 < mark) }
    ensures words { joined work.new result.list result.top ≡ join_of work.old top left right }
    ensures made { Made work.old work.new top result.list result.top (trees_at work.old left ⋈ trees_at work.old right) }
{
    if left == 0 {
        Held { list: right, top }
    } else if right == 0 {
        Held { list: left, top }
    } else {
        put_join(work, top, left, right);
        Held {
            list: top + 1,
            top: top + 1,
        }
    }
}

// Writes the records of a list of trees so that they end at `end`. One tree without children, as most lists are, takes no further call.
// `work` with Arena, and the width with its bounds, are apart, as in `write`, which is public: a struct for the width would be made there and in put_record.
#[cycle(writing)]
fn write_list(work: &[u32], room: &mut [u8], width: usize, list: u32, end: usize)
    requires arena { Arena work.now list }
    requires few { (records_of (trees_at work.now list) ≤ 1000) × ((0 < width) × (width ≤ 2)) }
    requires fits { (record_size width * records_of (trees_at work.now list) ≤ end) × (end ≤ length room.old) }
    ensures { Wrote room.old room.new width end (trees_at work.now list) }
{
    if records_of(work, list) == 1 {
        if let Cell::Tree {
            rule,
            start,
            end: last,
            ..
        } = cell_at(work, list)
        {
            let at = end - stored::record_size(width);
            stored::put_record(room, width, at, rule, start, last, 0);
            return;
        }
    }
    write_trees(work, room, width, list, end);
}

// The same, cell by cell. Of two joined lists it calls for the one with fewer records and goes on with the other, so calls nest no deeper than the
// records can be halved. A `while`, since it goes down a list's cells and counts nothing.
// `work` and the width are apart, as in write_list.
#[cycle(writing)]
fn write_trees(work: &[u32], room: &mut [u8], width: usize, list: u32, end: usize)
    requires arena { Arena work.now list }
    requires few { (records_of (trees_at work.now list) ≤ 1000) × ((0 < width) × (width ≤ 2)) }
    requires fits { (record_size width * records_of (trees_at work.now list) ≤ end) × (end ≤ length room.old) }
    ensures { Wrote room.old room.new width end (trees_at work.now list) }
{
    let mut rest = list;
    let mut to = end;
    while rest != 0 {
        match cell_at(work, rest) {
            Cell::Tree {
                rule,
                start,
                end: last,
                children,
            } => {
                to -= stored::record_size(width);
                let number = trees_of(work, children);
                stored::put_record(room, width, to, rule, start, last, number);
                rest = children;
            }
            Cell::Join { left, right } => {
                let records = records_of(work, right);
                let between = to - stored::record_size(width) * records as usize;
                if records_of(work, left) < records {
                    write_trees(work, room, width, left, between);
                    rest = right;
                } else {
                    write_list(work, room, width, right, to);
                    to = between;
                    rest = left;
                }
            }
        }
    }
}

// Writes the stored reading of a list of trees at the room's front.
pub fn write(work: &[u32], room: &mut [u8], width: usize, list: u32)
    requires arena { Arena work.now list }
    requires few { (records_of (trees_at work.now list) ≤ 1000) × ((0 < width) × (width ≤ 2)) }
    requires fits { stored_length width (records_of (trees_at work.now list)) ≤ length room.old }
    ensures { room.new ≡ with_stored room.old width (trees_at work.now list) }
{
    let records = records_of(work, list);
    stored::put_head(room, width, records);
    let end = stored::stored_length(width, records) as usize;
    write_trees(work, room, width, list, end);
}

// The program's work: reads lines from standard input by the sheet in the file class.gram, whole-line, and prints one line of text for each.
#![tactic(auto)]

mod lines;
mod load;

ghost use Rattle.std.specs.Prelude.{◌≡◌, ℕ, ◌≤◌, Err};
ghost use Rattle.page.specs.Page.{has_failed, Puts};
ghost use Rattle.sheet.specs.Check.{verdict_of};
ghost use Rattle.lesson.specs.Texts.{grammar_text, verdict_text};
ghost use Rattle.lesson.specs.Status.{refused, failed, exit_status_of, status_after, written_unless, Ends, status_of};

use page::Page;
use sheet::Refusal;
use std::fs::File;
use std::io::Input;
use std::rt::Files;

const STDERR: i32 = 2;

// The longest table has 2,695 bytes, and one more is kept: a file that is longer is seen to be so.
const TABLE: usize = 2_696;

// The exit status where nothing failed: all was read and printed, or there was no sheet to read by.
#[derive(Clone, Copy, Debug, PartialEq, Eq)]
enum Status {
    Done = 0,
    Refused = 1,
}

// The exit status where reading or writing failed. No variant of Status: it is every Failure's status, and no ending's.
const FAILED: u32 = 2;

// What could not be read or written.
#[derive(Clone, Copy, Debug, PartialEq, Eq)]
pub(crate) enum Failure {
    Table,
    Input,
    Output,
}

impl Failure {
    // Says on standard error what failed, by the kit's `io`: `eprintln!` would ask each caller of the program for leave to print.
    fn tell(self) {
        let message: &[u8] = match self {
            Failure::Table => b"classroom: class.gram could not be read\n",
            Failure::Input => b"classroom: standard input could not be read\n",
            Failure::Output => b"classroom: standard output could not be written\n",
        };
        io::write_all(STDERR, message);
    }
}

// Writes out what of the page is used.
pub(crate) fn print(page: &mut Page) -> Result<(), Failure>
    ensures { result ≡ written_unless (has_failed page.new) }
{
    page.send();
    if page.failed() {
        return Err(Failure::Output);
    }
    Ok(())
}

// Where there is no table, this is printed instead of answers.
fn put_grammar(page: &mut Page)
    ensures { Puts page.old grammar_text page.new }
{
    page.put_all(b"GRAMMAR\n");
}

fn print_grammar() -> Result<(), Failure>
    ensures { (status : ℕ) → Ends status (status_after status result) }
{
    let mut page = Page::blank();
    put_grammar(&mut page);
    print(&mut page)
}

fn put_verdict(page: &mut Page, refusal: Refusal)
    ensures { Puts page.old (verdict_text (verdict_of (Err refusal))) page.new }
{
    answers::put_refusal(page, refusal.code() as u64, refusal.place() as u64, 0);
}

fn print_verdict(refusal: Refusal) -> Result<Status, Failure>
    ensures { Ends refused (exit_status_of result) }
{
    let mut page = Page::blank();
    put_verdict(&mut page, refusal);
    print(&mut page)?;
    Ok(Status::Refused)
}

// A refused table prints one line and nothing more.
fn read_by<R: Input>(rt: &R, table: &[u8]) -> Result<Status, Failure>
    ensures { Ends (status_of table.now) (exit_status_of result) }
{
    if let Err(refusal) = sheet::check(table) {
        return print_verdict(refusal);
    }
    lines::read_lines(rt, table)?;
    Ok(Status::Done)
}

// A file that opens and can't be read, as a folder, prints what an unopened one does.
fn fail_to_load() -> Failure
    ensures { exit_status_of (Err result) ≡ failed }
{
    if let Err(failure) = print_grammar() {
        failure.tell();
    }
    Failure::Table
}

fn read_class<R: Files + Input>(rt: &R) -> Result<Status, Failure> {
    let Ok(mut file) = File::open(rt, "class.gram") else {
        print_grammar()?;
        return Ok(Status::Refused);
    };
    let mut table = [0; TABLE];
    let loaded = load::load(&mut file, &mut table);
    drop(file);
    match loaded {
        Ok(length) => read_by(rt, page::front(&table, length)),
        Err(_) => Err(fail_to_load()),
    }
}

fn exit_status(ending: Result<Status, Failure>) -> u32
    ensures { result ≡ exit_status_of ending }
{
    match ending {
        Ok(status) => status as u32,
        Err(failure) => {
            failure.tell();
            FAILED
        }
    }
}

// The program; what it gives is its exit status.
pub fn kos_lesson<R: Files + Input>(rt: &R) -> u32
    ensures { result ≤ failed }
{
    exit_status(read_class(rt))
}

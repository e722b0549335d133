// Text on its way to standard output, gathered on a page: a page that is full is written out and filled anew.
#![tactic(auto)]

ghost use Rattle.std.specs.Prelude.{◌≡◌, [], ◌∷◌, take};
ghost use Rattle.page.specs.Page.{blank_page, has_failed, marked, Sends, Puts};
ghost use Rattle.page.specs.Decimal.{decimal};

// What is put on a page goes to standard output.
const STDOUT: i32 = 1;

const SIZE: usize = 4_096;

// The bytes of text, how many of them, from the front, are used, and whether a write has failed. No vector: `Puts` says what stands past the used ones too.
#[derive(Clone, Copy)]
pub struct Page {
    bytes: [u8; SIZE],
    used: usize,
    failed: bool,
}

impl Page {
    pub fn blank() -> Page
        ensures { result ≡ blank_page }
    {
        Page {
            bytes: [0; SIZE],
            used: 0,
            failed: false,
        }
    }

    pub fn failed(&self) -> bool
        ensures { result ≡ has_failed self.now }
    {
        self.failed
    }

    // Remembers of a write whether it was done.
    fn mark(&mut self, done: bool)
        ensures { self.new ≡ marked self.old done }
    {
        self.failed |= !done;
    }

    // Writes out what of the page is used, and then none of it is; after a write that failed there is no other.
    pub fn send(&mut self)
        ensures { Sends self.old self.new }
    {
        if !self.failed {
            let done = io::write_all(STDOUT, front(&self.bytes, self.used));
            self.mark(done);
        }
        self.used = 0;
    }

    pub fn put(&mut self, byte: u8)
        ensures { Puts self.old (byte ∷ []) self.new }
    {
        if self.used >= SIZE {
            self.send();
        }
        self.bytes[self.used] = byte;
        self.used += 1;
    }

    pub fn put_all(&mut self, bytes: &[u8])
        ensures { Puts self.old bytes.now self.new }
    {
        for byte in bytes {
            self.put(*byte);
        }
    }

    // Puts a number in decimal digits. The library's `Display` says which digits it writes only where it writes to a String, which allocates.
    pub fn put_number(&mut self, number: u64)
        ensures { Puts self.old (decimal number) self.new }
    {
        let mut digits = [0; 20];
        let places = io::decimal(number, &mut digits);
        self.put_all(&digits[..places]);
    }
}

// So many bytes from the front, or all of them.
pub fn front(bytes: &[u8], count: usize) -> &[u8]
    ensures { result.now ≡ take count bytes.now }
{
    &bytes[..count.min(bytes.len())]
}

// The fields of a command on standard input: letters, big-endian numbers and bytes. None: the stream ends before the field does.

const STDIN: i32 = 0;

fn read_bytes<const COUNT: usize>() -> Option<[u8; COUNT]> {
    let mut bytes = [0u8; COUNT];
    if io::read_full(STDIN, &mut bytes) == COUNT {
        Some(bytes)
    } else {
        None
    }
}

pub(crate) fn read_letter() -> Option<u8> {
    let [letter] = read_bytes::<1>()?;
    Some(letter)
}

pub(crate) fn read_u16() -> Option<u16> {
    Some(u16::from_be_bytes(read_bytes()?))
}

pub(crate) fn read_u32() -> Option<u32> {
    Some(u32::from_be_bytes(read_bytes()?))
}

pub(crate) fn read_u64() -> Option<u64> {
    Some(u64::from_be_bytes(read_bytes()?))
}

// Bytes that stand at the front of a place. An array with its count beside, in one struct: `io::read_full` writes over bytes that are there, at its front.
#[derive(Drop)]
pub(crate) struct Counted<const MOST: usize> {
    place: [u8; MOST],
    count: usize,
}

impl<const MOST: usize> Counted<MOST> {
    pub(crate) fn empty() -> Self {
        Counted {
            place: [0; MOST],
            count: 0,
        }
    }

    // A length of two bytes and so many bytes; more than the place holds count as missing.
    pub(crate) fn read(&mut self) -> Option<()> {
        let count = usize::from(read_u16()?);
        if count > MOST || io::read_full(STDIN, &mut self.place[..count]) < count {
            return None;
        }
        self.count = count;
        Some(())
    }

    pub(crate) fn bytes(&self) -> &[u8] {
        page::front(&self.place, self.count)
    }
}

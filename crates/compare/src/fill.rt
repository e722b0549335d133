// What stands in the working numbers and the room before a reading, and the digest of what stands there after it.
ghost use Rattle.std.specs.Prelude.{◌<◌};

// Adds 31, modulo 65,537. As a formula over its index, with two divisions for each number, readings that are lent 262,144 took 1.21 times as long (docs/SPEED.md).
fn next(number: u32) -> u32
    requires { number < 65537 }
    ensures { result < 65537 }
{
    if number < 65_506 {
        number + 31
    } else {
        number - 65_506
    }
}

// Number i is (fill x 257 + i x 31 + 1) mod 65,537.
pub(crate) fn numbers(work: &mut [u32], fill: u8) {
    let mut number = u32::from(fill) * 257 + 1;
    for place in work {
        *place = number;
        number = next(number);
    }
}

// Byte i is (fill + i x 7) mod 256.
pub(crate) fn bytes(room: &mut [u8], fill: u8) {
    let mut next = fill;
    for byte in room {
        *byte = next;
        next = next.wrapping_add(7);
    }
}

fn with(digest: u32, element: u32) -> u32
    ensures { result < 4294967291 }
{
    ((u64::from(digest) * 65_599 + u64::from(element) + 1) % 4_294_967_291) as u32
}

pub(crate) fn digest<T: Copy + Into<u32>>(elements: &[T]) -> u64 {
    let digest = elements
        .iter()
        .fold(7, |digest, element| with(digest, (*element).into()));
    u64::from(digest)
}

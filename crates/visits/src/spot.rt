// Where a visit stands, in one number: its position, the live uses, and the open visits left.
// (So a visit has six parameters, as many as registers pass. A struct around the number is passed alike, in as many instructions, and these functions would be its
// methods and say no more.)
ghost use Rattle.std.specs.Prelude.{◌≡◌};
ghost use Rattle.visits.specs.Given.{left_in, live_in, pos_in, Moved};

use crate::{LIVE, UPPER};

pub(crate) fn left_of(spot: u64) -> u32
    ensures { result ≡ left_in spot }
{
    (spot % LIVE) as u32
}

pub(crate) fn live_of(spot: u64) -> u32
    ensures { result ≡ live_in spot }
{
    (spot % UPPER / LIVE) as u32
}

pub(crate) fn pos_of(spot: u64) -> u32
    ensures { result ≡ pos_in spot }
{
    (spot / UPPER) as u32
}

// The same at another position.
pub(crate) fn moved(spot: u64, pos: u32) -> u64
    ensures { Moved spot pos result }
{
    pos as u64 * UPPER + spot % UPPER
}

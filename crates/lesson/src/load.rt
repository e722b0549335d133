// The table, from a file.
ghost use Rattle.std.specs.Prelude.{◌≡◌, ◌≤◌, IfOk, length as count};

use std::io::Read;

// Reads the file to its end, or until the table is full: how many bytes of the file then stand on the table.
pub(crate) fn load<F: Read>(file: &mut F, table: &mut [u8]) -> std::io::Result<usize>
    ensures place { count table.new ≡ count table.old }
    ensures within { IfOk result (λ done. done ≤ count table.old) }
{
    let mut done = 0;
    // No `for`: how far a read gets is known only after it.
    while done < table.len() {
        let length = file.read(&mut table[done..])?;
        if length == 0 {
            break;
        }
        done += length;
    }
    Ok(done)
}

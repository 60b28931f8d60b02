// The start of a file or of another reader, put at the front of a lent buffer: all of it where the buffer is longer, else as
// much as the buffer holds. What can't be opened counts as empty, and a read that fails as the end.
#![tactic(auto)]

ghost use Rattle.std.specs.Prelude.{◌≤◌, length};

use std::fs::File;
use std::io::Read;
use std::rt::Files;
use std::str;

// Reads until the buffer is full, the reader ends or a read fails, and returns how many bytes it put. (How much each read puts is
// the reader's to say, so the loop has no range or chain.)
pub fn read_start<R: Read>(from: &mut R, start: &mut [u8]) -> usize
    ensures { result ≤ length start.new }
{
    let mut filled = 0;
    while filled < start.len() {
        let more = from.read(&mut start[filled..]).unwrap_or(0);
        if more == 0 {
            break;
        }
        filled += more;
    }
    filled
}

// The same of the file of this name.
pub fn read_file_start<R: Files>(rt: &R, name: &[u8], start: &mut [u8]) -> usize
    ensures { result ≤ length start.new }
{
    let Ok(name) = str::from_utf8(name) else {
        return 0;
    };
    let Ok(mut file) = File::open(rt, name) else {
        return 0;
    };
    read_start(&mut file, start)
}

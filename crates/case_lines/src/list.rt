// The cases of the file `cases`, and the two sides of a line's last colon.
use std::io;
use std::rt::Files;
use streams::read_file_start;

// A line's name and its parts: what stands before its last colon, and the colon with what follows it. Where it has no colon, all
// of it is the name.
fn name_and_parts(line: &[u8]) -> (&[u8], &[u8]) {
    let colon = line.iter().rposition(|byte| *byte == b':');
    line.split_at(colon.unwrap_or(line.len()))
}

// Each case in order, by its name and its parts.
pub fn each_case<F: FnMut(&[u8], &[u8]) -> io::Result<()>>(
    rt: &impl Files,
    mut case: F,
) -> io::Result<()>
    requires { F.IsAlwaysCallable case }
{
    let mut list = [0u8; 65536];
    let n = read_file_start(rt, b"cases", &mut list);
    for line in list[..n].split_inclusive(|byte| *byte == b'\n') {
        let (name, parts) = name_and_parts(line.strip_suffix(b"\n").unwrap_or(line));
        case(name, parts)?;
    }
    Ok(())
}

// The letter that says what is asked, if there is one: the second byte after the colon.
pub fn asked(parts: &[u8]) -> Option<u8> {
    parts.get(2).copied()
}

// Numbers of a line's parts, exact up to 4294967295; one above is read as 4294967295. (Of a clock or a slot only the low 8 or 16
// bits are kept: `bench/run.sh cases` refuses a line with a number that is too large for its place.)

fn value(digits: &[u8]) -> u32 {
    digits.iter().fold(0u32, |value, digit| {
        value
            .saturating_mul(10)
            .saturating_add(digit.wrapping_sub(b'0') as u32)
    })
}

// The k-th number of a part, both counted from 0; none where the part has fewer.
pub fn number(parts: &[u8], part: usize, k: usize) -> Option<u32> {
    let part = parts.split(|byte| *byte == b'|').nth(part)?;
    part.split(|byte| !byte.is_ascii_digit())
        .filter(|digits| !digits.is_empty())
        .nth(k)
        .map(value)
}

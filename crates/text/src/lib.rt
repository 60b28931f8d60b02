// Text put into a lent buffer: a byte, a word, a word with a number after it. Each asks for the room that it takes; whether there is
// so much room can be asked. (Buffer and place are two, and where one text ends the next is put: in a struct with the lent buffer
// each clause would be of a loan.)
#![tactic(auto)]

ghost use Rattle.std.specs.Prelude.{◌≡◌, ℕ, List, [], ◌∷◌, ◌++◌, ◌+◌, ◌≤◌, length, leb};
ghost use Rattle.text.specs.Text.{decimal, Put};
ghost use Rattle.text.specs.Written.{TakesRoom, Puts, wrote_of, buffer_of};

// Whether `room` bytes are left from a place on in a buffer of `all` bytes.
pub fn has_room(all: usize, at: usize, room: usize) -> bool
    ensures { result ≡ leb (at + room) all }
{
    room <= all && at <= all - room
}

// What `put` puts from `at` on, where `room` bytes are left for it, and where that ends. None: they are not, and nothing is put.
pub fn put_in_room<F: FnOnce(&mut [u8]) -> usize>(
    out: &mut [u8],
    at: usize,
    room: usize,
    put: F,
) -> Option<usize>
    requires { TakesRoom F.FnOnce put room out.old at }
    ensures value { (text : List ℕ) → Puts F.FnOnce put room out.old at text → result ≡ wrote_of room out.old at text }
    ensures out_after { (text : List ℕ) → Puts F.FnOnce put room out.old at text → out.new ≡ buffer_of room out.old at text }
{
    if has_room(out.len(), at, room) {
        return Some(put(out));
    }
    None
}

pub fn put_byte(out: &mut [u8], at: usize, byte: u8) -> usize
    requires { at + 1 ≤ length out.old }
    ensures { Put 1 out.old at (byte ∷ []) out.new result }
{
    out[at] = byte;
    at + 1
}

pub fn put_word(out: &mut [u8], at: usize, word: &[u8]) -> usize
    requires { at + length word.now ≤ length out.old }
    ensures { Put (length word.now) out.old at word.now out.new result }
{
    let end = at + word.len();
    out[at..end].copy_from_slice(word);
    end
}

// A number in decimal: its tenth, then its last digit. (By hand: `write!` to a slice would not say where the text ended.)
fn put_digits(out: &mut [u8], at: usize, number: u64) -> usize
    requires { at + length (decimal number) ≤ length out.old }
    ensures { Put (length (decimal number)) out.old at (decimal number) out.new result }
{
    if number < 10 {
        return put_byte(out, at, 48 + number as u8);
    }
    let last = put_digits(out, at, number / 10);
    put_byte(out, last, 48 + (number % 10) as u8)
}

// A word and a 32-bit number after it, which has 10 digits at most.
pub fn put_numbered(out: &mut [u8], at: usize, word: &[u8], number: u32) -> usize
    requires { at + (length word.now + 10) ≤ length out.old }
    ensures { Put (length word.now + 10) out.old at (word.now ++ decimal number) out.new result }
{
    let digits = put_word(out, at, word);
    put_digits(out, digits, number as u64)
}

// A word and a 64-bit number after it, which has 20 digits at most. (Apart from the one above, since it asks for more room.)
pub fn put_wide(out: &mut [u8], at: usize, word: &[u8], number: u64) -> usize
    requires { at + (length word.now + 20) ≤ length out.old }
    ensures { Put (length word.now + 20) out.old at (word.now ++ decimal number) out.new result }
{
    let digits = put_word(out, at, word);
    put_digits(out, digits, number)
}

// A word, a 32-bit number after it, and the newline that ends the line.
pub fn put_ended(out: &mut [u8], at: usize, word: &[u8], number: u32) -> usize
    requires { at + (length word.now + 11) ≤ length out.old }
    ensures { Put (length word.now + 11) out.old at (word.now ++ decimal number ++ (10 ∷ [])) out.new result }
{
    let end = put_numbered(out, at, word, number);
    put_byte(out, end, b'\n')
}

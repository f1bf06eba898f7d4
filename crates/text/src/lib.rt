// The lines of a plan text and their bytes, at positions of the caller's slice: where a line ends, whether it is faulty, and which bytes it has.
// Proved: each operation answers as document 01's 'Plan text' has it of the line at that position, by an equation. It knows nothing of what bytes mean.
// Text and position are two parameters: the crates above keep positions alone, beside the one text that they are lent.
#![tactic(auto)]

ghost use Rattle.std.specs.Prelude.{◌≡◌, ◌+◌, ◌<◌, ◌≤◌, not, length, take, drop, position};
ghost use Rattle.text.specs.Text.{is_digit, value_of, bad_pair, odd_or_none, is_faulty, byte};
ghost use Rattle.text.specs.Positions.{bytes_at, end_at, line_at};

// Whether a character is 0-9 or a-f.
#[tactic(auto, unfolding(crate::specs::Text::is_digit))]
fn is_digit(c: u8) -> bool
    ensures { result ≡ is_digit c }
{
    matches!(c, b'0'..=b'9' | b'a'..=b'f')
}

// A digit's value, and 0 for any other character. Its ranges are those of `is_digit`: a value alone would not tell the digit 0.
#[tactic(auto, unfolding(crate::specs::Text::value_of))]
fn value(c: u8) -> u8
    ensures { (result ≡ value_of c) × (result < 16) }
{
    match c {
        b'0'..=b'9' => c - b'0',
        b'a'..=b'f' => c - b'a' + 10,
        // 0 and no Option: the definition gives the characters of every line a value, faulty or not.
        _ => 0,
    }
}

// The position of the line feed that ends the line at `at`, or of the text's end.
pub fn line_end(text: &[u8], at: usize) -> usize
    ensures { result ≡ end_at text.now at }
{
    let Some(rest) = text.get(at..) else {
        return at;
    };
    at + rest.iter().position(|c| *c == b'\n').unwrap_or(rest.len())
}

// How many characters stand before the first that is no digit; none where all are digits.
fn first_other(characters: &[u8]) -> Option<usize>
    ensures { result ≡ position (λ c. not (is_digit c)) characters.now }
{
    characters.iter().position(|c| !is_digit(*c))
}

// The pair, from 1, that holds the first character other than a digit of the line at `at`; 0 without one.
#[tactic(auto, using(crate::proofs::Lines::end_fits, crate::proofs::Lines::end_out, crate::proofs::Lines::pair_at))]
pub fn bad_pair(text: &[u8], at: usize) -> usize
    ensures { result ≡ bad_pair (line_at text.now at).characters }
{
    if text.len() <= at {
        return 0;
    }
    match first_other(&text[at..line_end(text, at)]) {
        Some(before) => before / 2 + 1,
        // Order 3 of document 02 has place 0 where there is none.
        None => 0,
    }
}

// Whether a line of so many characters is no line of bytes: an odd number, or none.
#[tactic(auto, unfolding(crate::specs::Text::odd_or_none))]
fn odd_or_none(size: usize) -> bool
    ensures { result ≡ odd_or_none size }
{
    size % 2 == 1 || size == 0
}

// Whether the line at `at`, which ends at `end`, is faulty.
#[tactic(auto, using(crate::proofs::Lines::faulty_at))]
pub fn is_faulty(text: &[u8], at: usize, end: usize) -> bool
    requires { (at < length text.now) × (end ≡ end_at text.now at) }
    ensures { result ≡ is_faulty (line_at text.now at) }
{
    text.len() <= end || first_other(&text[at..end]).is_some() || odd_or_none(end - at)
}

// Byte number i of the line at `at`. By hand: the library reads no byte from two digits without an error of its own.
#[tactic(auto, using(crate::proofs::Lines::byte_fits, crate::proofs::Lines::byte_at))]
pub fn byte_in(text: &[u8], at: usize, i: usize) -> u8
    requires { i < length (bytes_at text.now at) }
    ensures { result ≡ byte i (bytes_at text.now at) }
{
    let high = at + i * 2;
    value(text[high]) * 16 + value(text[high + 1])
}

// Byte number i of the line at `at`, and 0 where the line has no such byte.
pub fn byte_or_zero(text: &[u8], at: usize, i: usize) -> u8
    ensures { result ≡ byte i (bytes_at text.now at) }
{
    if size_in(text, at) <= i {
        // 0 and no Option: so the definition of a byte has it past a line's end.
        return 0;
    }
    byte_in(text, at, i)
}

// How many bytes the line at `at` has.
#[tactic(auto, using(crate::proofs::Lines::size_at))]
pub fn size_in(text: &[u8], at: usize) -> usize
    ensures { result ≡ length (bytes_at text.now at) }
{
    (line_end(text, at) - at) / 2
}

// Lays bytes of the line at `at`, from byte number `from` on, in a slice, as many as it has room for.
#[tactic(auto, using(crate::proofs::Lines::bytes_fit))]
pub fn bytes_in(text: &[u8], at: usize, from: usize, into: &mut [u8])
    requires { from + length into.old ≤ length (bytes_at text.now at) }
    ensures { into.new ≡ take (length into.old) (drop from (bytes_at text.now at)) }
{
    for (i, byte) in into.iter_mut().enumerate() {
        *byte = byte_in(text, at, from + i);
    }
}

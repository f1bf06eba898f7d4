// The header of a record: a line of sixteen hexadecimal digits, eight for the length of the record's text and eight for its allowance of rounds.
ghost use Rattle.std.specs.Prelude.{◌≡◌, ◌<◌, ◌≤◌, length, IfSome, IfOk};
ghost use Rattle.inputs.specs.Header.{digit_value, number_from, header_of, longest_text};

use crate::Fault;

// What a header says: how long the text is and how many rounds are allowed.
#[derive(Clone, Copy)]
pub(crate) struct Header {
    pub(crate) size: usize,
    pub(crate) allowance: u16,
}

// The longest text of a record, in bytes.
const LONGEST_TEXT: u32 = 65536;

// A digit's value, if the character is one: 0-9 or a-f, and not A-F, which `to_digit` takes too. Not the `value` of `text`: that gives every character of
// a line one.
fn value(c: u8) -> Option<u32>
    ensures value { result ≡ digit_value c }
    ensures below { IfSome result (λ n. n < 16) }
{
    match c {
        b'0'..=b'9' => Some(u32::from(c - b'0')),
        b'a'..=b'f' => Some(u32::from(c - b'a') + 10),
        _ => None,
    }
}

// The number that at most eight digits make, if they are digits.
fn number(digits: &[u8]) -> Option<u32>
    requires { length digits.now ≤ 8 }
    ensures { result ≡ number_from 0 digits.now }
{
    let mut n = 0;
    for c in digits {
        n = n * 16 + value(*c)?;
    }
    Some(n)
}

// What a header's line says, or why it is none.
pub(crate) fn header_of(line: &[u8]) -> Result<Header, Fault>
    ensures header { result ≡ header_of line.now }
    ensures fits { IfOk result (λ header. header.size ≤ longest_text) }
{
    if line.len() != 17 {
        return Err(Fault::CutShort);
    }
    if line[16] != b'\n' {
        return Err(Fault::NoHeader);
    }
    let size = number(&line[..8]).ok_or(Fault::NoHeader)?;
    let allowance = number(&line[8..16]).ok_or(Fault::NoHeader)?;
    if LONGEST_TEXT < size {
        return Err(Fault::TextTooLong);
    }
    let allowance = u16::try_from(allowance).map_err(|_| Fault::AllowanceTooLarge)?;
    Ok(Header {
        size: size as usize,
        allowance,
    })
}

// Puts lines and characters into a buffer from a position on. Each function returns the position behind what it put. Steps of proved writers,
// which know that there is room: no caller outside calls them.
// Buffer and position are two parameters: a caller keeps the position, and lends the buffer.
#![tactic(auto)]

ghost use Rattle.std.specs.Prelude.{◌≡◌, ◌++◌, ◌<◌};
ghost use Rattle.putting.specs.Characters.{digit, hex_line};
ghost use Rattle.putting.specs.Put.{Room, Put};

// The character of a hexadecimal digit. By hand, here and in `put_line`: the library prints to a writer, and no contract says there which bytes stand where.
#[tactic(auto, unfolding(crate::specs::Characters::digit))]
fn digit(value: u8) -> u8
    requires { value < 16 }
    ensures { result ≡ digit value }
{
    match value {
        0..=9 => b'0' + value,
        _ => b'a' + value - 10,
    }
}

// Puts a line: its bytes, two digits each, and a line feed.
#[tactic(auto, using(crate::proofs::Characters::line_sizes))]
pub fn put_line(buffer: &mut [u8], at: usize, bytes: &[u8]) -> usize
    requires { Room buffer.old at (hex_line bytes.now) }
    ensures { Put buffer.old at (hex_line bytes.now) buffer.new result }
{
    let mut next = at;
    for byte in bytes {
        buffer[next] = digit(byte / 16);
        buffer[next + 1] = digit(byte % 16);
        next += 2;
    }
    buffer[next] = b'\n';
    next + 1
}

// Puts characters as they are. One by one: the library's copying calls memmove, and gateways are promised that nothing but memcpy and memset is called.
pub fn put_text(buffer: &mut [u8], at: usize, characters: &[u8]) -> usize
    requires { Room buffer.old at characters.now }
    ensures { Put buffer.old at characters.now buffer.new result }
{
    let mut next = at;
    for character in characters {
        buffer[next] = *character;
        next += 1;
    }
    next
}

// Puts the last two lines of a sheet: bytes, and a phrase that ends in a line feed.
#[tactic(auto, using(crate::proofs::Putting::rooms))]
pub fn put_last(buffer: &mut [u8], at: usize, bytes: &[u8], phrase: &[u8]) -> usize
    requires { Room buffer.old at (hex_line bytes.now ++ phrase.now) }
    ensures { Put buffer.old at (hex_line bytes.now ++ phrase.now) buffer.new result }
{
    let next = put_line(buffer, at, bytes);
    put_text(buffer, next, phrase)
}

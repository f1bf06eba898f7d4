// The bytes of labels in people's own script: whether they are well formed, and the front part that a sheet shows. The way of the data: a first
// byte, a character, whole characters from the start, and the operations. Proved: `is_label` decides what RFC 3629's table of ranges and order 2
// ask, and `shortened` is the longest whole-character beginning of at most 24 bytes, of any bytes whatever.
#![tactic(auto)]

ghost use Rattle.std.specs.Prelude.{◌≡◌, true, ◌↔◌, Some};
ghost use Rattle.label_bytes.specs.declared.Lead.TheVariants.{More};
ghost use Rattle.label_bytes.specs.Label.{IsLabel, IsShortened};
ghost use Rattle.label_bytes.specs.inner.Working.{are_tails, Leads, Begun, WholeTo};

use limits::LONGEST_SHORT;
use std::ops::RangeInclusive;

// What a first byte says of its character.
#[derive(Drop)]
enum Lead {
    // The byte is all of it.
    One,
    // It has more bytes, so many in all, and the second is in this range.
    More {
        size: usize,
        second: RangeInclusive<u8>,
    },
}

// A row of the table, of more than one byte.
fn row(size: usize, second: RangeInclusive<u8>) -> Option<Lead>
    ensures { result ≡ Some (More size second) }
{
    Some(Lead::More { size, second })
}

// What a first byte says of its character; none where no character of a label begins so.
#[tactic(auto, using(crate::proofs::Leads::rows))]
fn lead_of(first: u8) -> Option<Lead>
    ensures { Leads first result }
{
    match first {
        0x20..=0x7e => Some(Lead::One),
        0xc2..=0xdf => row(2, 0x80..=0xbf),
        0xe0 => row(3, 0xa0..=0xbf),
        0xe1..=0xec => row(3, 0x80..=0xbf),
        0xed => row(3, 0x80..=0x9f),
        0xee..=0xef => row(3, 0x80..=0xbf),
        0xf0 => row(4, 0x90..=0xbf),
        0xf1..=0xf3 => row(4, 0x80..=0xbf),
        0xf4 => row(4, 0x80..=0x8f),
        _ => None,
    }
}

// Whether these bytes are all tails.
fn are_tails(bytes: &[u8]) -> bool
    ensures { result ≡ are_tails bytes.now }
{
    bytes.iter().all(|byte| matches!(*byte, 0x80..=0xbf))
}

// How many bytes the character has that these begin with; none where they begin with no whole character of a label.
fn first_character(bytes: &[u8]) -> Option<usize>
    ensures { Begun bytes.now result }
{
    match lead_of(*bytes.first()?)? {
        Lead::One => Some(1),
        Lead::More { size, second } => {
            let character = bytes.get(..size)?;
            let fits = second.contains(&character[1]) && are_tails(&character[2..]);
            fits.then_some(size)
        }
    }
}

// How long the longest beginning of whole characters is that has at most `most` bytes.
fn whole(bytes: &[u8], most: usize) -> usize
    ensures { WholeTo most bytes.now result }
{
    let mut end = 0;
    // A while: the step is a whole character, so no iterator counts it.
    while let Some(size) = first_character(&bytes[end..]) {
        if most - end < size {
            return end;
        }
        end += size;
    }
    end
}

// Whether these bytes are whole characters that a label may have.
pub fn is_label(bytes: &[u8]) -> bool
    ensures { (result ≡ true) ↔ IsLabel bytes.now }
{
    whole(bytes, bytes.len()) == bytes.len()
}

// The longest whole-character beginning of at most 24 bytes, as the front part of the bytes themselves.
pub fn shortened(bytes: &[u8]) -> &[u8]
    ensures { IsShortened bytes.now result.now }
{
    let end = whole(bytes, LONGEST_SHORT);
    &bytes[..end]
}

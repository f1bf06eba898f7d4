// A label as it was read.
ghost use Rattle.std.specs.Prelude.{◌≡◌, ◌≤◌, length, take};

use limits::LONGEST_LABEL;

// The label of a channel, a binder or a level: its kind and number, how many bytes it has, and these with zeros behind them: memory is fixed, so the
// array holds the longest.
#[derive(Clone, Copy)]
pub struct Label {
    pub kind: u8,
    pub number: u8,
    pub size: usize,
    pub bytes: [u8; LONGEST_LABEL],
    pub ghost sized: { size ≤ length bytes },
}

impl Label {
    // The label's own bytes, without the zeros behind them.
    pub fn own_bytes(&self) -> &[u8]
        ensures { result.now ≡ take self.now.size self.now.bytes }
    {
        &self.bytes[..self.size]
    }
}

// A whole sheet by itself, whichever it is.
ghost use Rattle.std.specs.Prelude.{◌≡◌, ◌≤◌, length, take};

// The bytes that suffice for every sheet.
pub const LONGEST: usize = 8128;

// A whole sheet: its characters from the array's start, with zeros behind them, and how many they are, since memory is fixed.
#[derive(Clone, Copy)]
pub struct Sheet {
    pub bytes: [u8; LONGEST],
    pub size: usize,
    pub ghost counted: { size ≤ length bytes },
}

impl Sheet {
    // The sheet's characters.
    pub fn characters(&self) -> &[u8]
        ensures { result.now ≡ take self.now.size self.now.bytes }
    {
        &self.bytes[..self.size]
    }
}

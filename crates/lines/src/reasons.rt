// What a text is refused for while it is read, each under the documents' number. The numbers between are the solver's, 14, and the sheet's, 15.
ghost use Rattle.std.specs.Prelude.{◌≡◌};
ghost use Rattle.lines.specs.Frames.{number_of};

// Why a text is refused.
#[derive(Clone, Copy, Debug, PartialEq, Eq)]
pub enum Reason {
    WrongLength = 1,
    FaultyLine = 2,
    NotAllowed = 3,
    WrongSize = 4,
    OtherEdition = 5,
    OutsideLimits = 6,
    TooHigh = 7,
    NotAscending = 8,
    NoMeaning = 9,
    TooManyNodes = 10,
    TooDeep = 11,
    TextEnds = 12,
    TextGoesOn = 13,
    EmptyOffer = 16,
    IllFormedLabel = 17,
    RepeatedLabel = 18,
}

impl Reason {
    // The documents' number of the refusal.
    pub fn number(self) -> u8
        ensures { result ≡ number_of self }
    {
        self as u8
    }
}

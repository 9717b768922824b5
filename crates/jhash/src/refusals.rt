// Why a call is refused. 01 and 02 fix the numbers up to 23; 24 is added. C names them CQDB_TOO_SHORT and so on.
ghost use Rattle.std.specs.Prelude.{◌≡◌};
ghost use Rattle.jhash.specs.Refusals.{number_of};
ghost use Rattle.jhash.specs.Outcome.{refusal_of};

#[derive(Clone, Copy, Debug, PartialEq, Eq)]
pub enum Refusal {
    // Fewer than 2,072 bytes.
    TooShort = 1,
    // The writer does not fit the buffer, or mode or repeats is neither 0 nor 1.
    Unfit = 2,
    // The image would exceed the buffer or 4,294,967,295 bytes.
    NoRoom = 3,
    // The buffer's entries are not the writer's, or the image that close would write is too large.
    Inconsistent = 4,
    // The image does not begin with the letters CQDB.
    WrongLetters = 5,
    // The word at 12 is wrong.
    WrongByteOrder = 6,
    // A table with an offset above 0 leaves the image.
    TableLeaves = 7,
    // A back array with an offset above 0 leaves the image.
    BackLeaves = 8,
    // The name has 4,294,967,295 bytes or more.
    NameTooLong = 9,
    // The images of a bundle do not lie back to back, or the new one is unfit.
    BrokenBundle = 10,
    // The bundle ends at or before the position.
    NoSuchImage = 11,
    // The page has more bytes than the output.
    PageTooLong = 12,
    // The name has a zero byte.
    ZeroByte = 13,
    // Ends that fall or pass the names, or more than 512 names or ids.
    RoundUnfit = 14,
    // Fewer answer places than names or ids.
    AnswersTooFew = 15,
    // Repeats are off, and an earlier entry has this name.
    Repeated = 16,
    // The bytes are not the image that some list of puts closes to.
    NotCanonical = 17,
    // The image has no entry.
    NoEntries = 18,
    // The sheet ends before its third section does.
    TooFewBytes = 19,
    // Bytes follow the third section of the sheet.
    LeftOverBytes = 20,
    // A list of the sheet has more than 65,535 ids, or the buffer is too short.
    SheetTooLarge = 21,
    // A date does not exist or is out of bounds.
    NoSuchDate = 22,
    // A window does not start before its end.
    NotBeforeEnd = 23,
    // Every slot of the index is taken.
    IndexFull = 24,
}

// The number of a refusal.
impl From<Refusal> for u32 {
    ghost from_gives = { λ r n. n ≡ number_of r };

    fn from(refusal: Refusal) -> u32 {
        refusal as u32
    }
}

// The number that C is given for a call that answers no value: that of the refusal, 0 where the call is accepted.
pub fn refusal_number(answer: Result<(), Refusal>) -> u32
    ensures { result ≡ refusal_of answer }
{
    match answer {
        Ok(()) => 0,
        Err(refusal) => u32::from(refusal),
    }
}

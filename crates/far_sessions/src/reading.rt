// The reading of a cell, and its encoding in four words.
ghost use Rattle.std.specs.Prelude.{◌≡◌};
ghost use Rattle.far_sessions.specs.Readings.{reading_in};

/// The reading of a table's gauge after the history so far.
#[derive(Clone, Copy, Debug, PartialEq, Eq)]
pub struct Reading {
    /// How many edits were accepted.
    pub edits: u64,
    /// How many rows the gauge folds over.
    pub count: u64,
    /// The sum of their values.
    pub sum: i128,
}

/// Encodes a reading as the words of a cell: the edits, the count, and the sum in two's complement, its low word first.
pub fn words_of(reading: Reading) -> [u64; 4]
    ensures { reading_in result ≡ reading }
{
    let bits = reading.sum.cast_unsigned();
    let low = bits % (1 << 64);
    let high = bits >> 64;
    [reading.edits, reading.count, low as u64, high as u64]
}

/// Decodes the words of a cell.
pub fn reading_of(words: [u64; 4]) -> Reading
    ensures { result ≡ reading_in words }
{
    let sum = (u128::from(words[3]) << 64) + u128::from(words[2]);
    Reading {
        edits: words[0],
        count: words[1],
        sum: sum.cast_signed(),
    }
}

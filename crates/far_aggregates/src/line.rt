// The line of one key.
ghost use Rattle.std.specs.Prelude.{◌≡◌};

use far_extrema::MinMax;
use far_groups::CountSum;

/// The values of an answer's line, without its key.
#[derive(Clone, Copy, Debug, PartialEq, Eq)]
pub enum Line {
    /// How many values the key has, and their sum.
    Totals { count: u64, sum: i128 },
    /// The least and the greatest of the key's values.
    Extrema { min: i64, max: i64 },
}

impl Line {
    /// Makes the line of a count and a sum.
    pub fn of_totals(found: CountSum) -> Line
        ensures { result ≡ Line.Totals found.0 found.1 }
    {
        Line::Totals {
            count: found.count,
            sum: found.sum,
        }
    }

    /// Makes the line of a least and a greatest value.
    pub fn of_extrema(found: MinMax) -> Line
        ensures { result ≡ Line.Extrema found.0 found.1 }
    {
        Line::Extrema {
            min: found.min,
            max: found.max,
        }
    }
}

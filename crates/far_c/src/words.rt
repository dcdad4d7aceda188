// Numbers of 128 bits as C receives them.
ghost use Rattle.far_c.specs.Sums.{AreWordsOf};

/// Returns the words of a number in two's complement, the low one first.
pub fn words(sum: i128) -> (u64, i64)
    ensures { AreWordsOf sum result.0 result.1 }
{
    let bits = sum.cast_unsigned();
    let low = (bits % (1 << 64)) as u64;
    let high = (bits / (1 << 64)) as u64;
    (low, high.cast_signed())
}

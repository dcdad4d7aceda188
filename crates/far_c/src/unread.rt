// Why arguments of C cannot be read.
use std::alloc::{AllocError, AllocFailed};

/// Why an argument of C cannot be read.
#[derive(Clone, Copy, PartialEq, Eq)]
pub enum Unread {
    /// A kind, a fold or a comparison is not valid.
    BadArgument,
    /// A text is not valid UTF-8.
    NoUtf8,
    /// Memory ran out.
    NoMemory,
}

impl From<AllocError> for Unread {
    ghost use Rattle.std.specs.Prelude.{◌≡◌};
    ghost use Rattle.far_c.specs.declared.unread.Unread.TheVariants.{NoMemory};

    ghost from_gives = { λ _ e. e ≡ NoMemory };

    fn from(_e: AllocError) -> Unread {
        Unread::NoMemory
    }
}

impl<T: Drop> From<AllocFailed<T>> for Unread {
    ghost use Rattle.std.specs.Prelude.{◌≡◌};
    ghost use Rattle.far_c.specs.declared.unread.Unread.TheVariants.{NoMemory};

    ghost from_gives = { λ _ e. e ≡ NoMemory };

    fn from(_e: AllocFailed<T>) -> Unread {
        Unread::NoMemory
    }
}

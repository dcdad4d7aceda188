// The codes that calls return.
//
// 0 is success. The codes from 1 to 24 are the numbers of refusals, which `Refusal` names. Only this library returns codes from 100 on.

/// The call is done.
pub const OK: u32 = 0;

/// The handle is closed.
pub const CLOSED: u32 = 100;

/// The handle is open already.
pub const ALREADY_OPEN: u32 = 101;

/// A text is not valid UTF-8.
pub const NO_UTF8: u32 = 102;

/// A length, a kind, a fold or a comparison is not valid.
pub const BAD_ARGUMENT: u32 = 103;

/// The thing that the call asks for does not exist.
pub const NOTHING: u32 = 104;

/// A buffer is too short for the result.
pub const SHORT_BUFFER: u32 = 105;

/// The limit of counted faults is reached, so no job is carried any more.
pub const USED_UP: u32 = 106;

// The limits of a table.
ghost use Rattle.std.specs.Prelude.{◌≡◌, OnOk, IfErr};

use super::refusal::Refusal;

/// The limits that a table is opened with.
///
/// The usual limits, for at most 1,000 rows:
///
/// ```
/// fn are_small_limits_allowed() -> bool {
///     let limits = Limits {
///         places: 1_000,
///         ..Limits::default()
///     };
///     limits.check() == Ok(())
/// }
/// ```
#[derive(Clone, Copy, Debug, PartialEq, Eq)]
pub struct Limits {
    /// How many places a row group has: 1 to 65,536.
    pub group: u32,
    /// How many places the table may have: 1 to 2^24.
    pub places: u32,
    /// How many edits, and how many jobs, are accepted: 1 to 2^40.
    pub edits: u64,
    /// How many segments the local region of numbers has: 1 to 1,024.
    pub int_segments: u32,
    /// How many numbers each of these segments holds: from `group` to 1,048,576.
    pub int_size: u32,
    /// How many segments the local region of texts has: 1 to 1,024.
    pub text_segments: u32,
    /// How many bytes each of these segments holds: 64 to 16,777,216.
    pub text_size: u32,
}

impl Limits {
    ghost use Rattle.far_types.specs.Bounds.{AreLimits, usual_limits};

    /// Returns the usual limits, in row groups of `group` places:
    /// - as many places and edits as a table may have;
    /// - 64 segments of 4,096 numbers, or of the numbers of one row group if these are more;
    /// - 64 segments of 65,536 bytes of texts.
    pub fn in_groups_of(group: u32) -> Limits
        ensures { result ≡ usual_limits group }
    {
        Limits {
            group,
            places: 16_777_216,
            edits: 1_099_511_627_776,
            int_segments: 64,
            int_size: group.max(4_096),
            text_segments: 64,
            text_size: 65_536,
        }
    }

    /// Checks that a table may have these limits. Refused with `BadSchema` (2) exactly if a limit is out of its bounds.
    /// Allocates nothing.
    pub fn check(&self) -> Result<(), Refusal>
        ensures ok { OnOk result (AreLimits self.now) }
        ensures bad { IfErr result (λ e. (e ≡ Refusal.BadSchema) × ¬ (AreLimits self.now)) }
    {
        let limits = *self;
        if limits.group < 1
            || limits.group > 65_536
            || limits.places < 1
            || limits.places > 16_777_216
            || limits.edits < 1
            || limits.edits > 1_099_511_627_776
        {
            return Err(Refusal::BadSchema);
        }
        if limits.int_segments < 1
            || limits.int_segments > 1_024
            || limits.int_size < limits.group
            || limits.int_size > 1_048_576
        {
            return Err(Refusal::BadSchema);
        }
        if limits.text_segments < 1
            || limits.text_segments > 1_024
            || limits.text_size < 64
            || limits.text_size > 16_777_216
        {
            return Err(Refusal::BadSchema);
        }
        Ok(())
    }
}

/// The usual limits, in row groups of 64 places.
impl Default for Limits {
    ghost use Rattle.std.specs.Prelude.{◌≡◌};
    ghost use Rattle.far_types.specs.Bounds.{usual_limits};

    ghost is_default = { λ limits. limits ≡ usual_limits 64 };

    fn default() -> Limits {
        Limits::in_groups_of(64)
    }
}

// Work in the background of a shared table.
ghost use Rattle.std.specs.Prelude.{◌≡◌};
ghost use Rattle.far_shared.specs.Works.{columns_for, stripe_of};

use far_types::Name;

/// One work on a stripe in the background. It changes no row. Each variant begins with the number of its stripe.
#[derive(Clone, Copy, Debug, PartialEq, Eq)]
pub enum Work {
    /// Evicts the coldest object.
    Evacuate(u32),
    /// Fetches the object of a column and a row group.
    Fetch(u32, Name),
    /// Builds a pending row group into its aggregate.
    Build(u32),
}

impl Work {
    /// Returns the number of its stripe. Allocates nothing.
    pub fn stripe(&self) -> u32
        ensures { result ≡ stripe_of self.now }
    {
        match self {
            Work::Evacuate(stripe) => *stripe,
            Work::Fetch(stripe, _) => *stripe,
            Work::Build(stripe) => *stripe,
        }
    }

    /// Returns the number of columns that the schema must have for the object that the work names. Allocates nothing.
    pub fn columns(&self) -> u64
        ensures { result ≡ columns_for self.now }
    {
        match self {
            Work::Fetch(_, name) => u64::from(name.column) + 1,
            Work::Evacuate(_) | Work::Build(_) => 0,
        }
    }
}

/// The report on a list of works.
#[derive(Clone, Copy, Debug, PartialEq, Eq)]
pub struct Report {
    /// The number of works that were done, including those for which there was nothing to do.
    pub done: u64,
    /// The number of works that were refused.
    pub refused: u64,
}

/// How a pending row group is scanned into its aggregate. The parameter is a job.
#[derive(Drop)]
pub enum Building<J> {
    /// No row group of any aggregate is pending.
    Nothing,
    /// By a scan: all columns that the aggregate needs are local.
    Scan {
        /// The number of the aggregate.
        aggregate: u32,
        /// The row group.
        group: u32,
    },
    /// By a job, from the far store's copies.
    Offload(J),
}

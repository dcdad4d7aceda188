// The background worker, which evicts objects.
ghost use Rattle.std.specs.Prelude.{◌≡◌, ◌≤◌, IfErr, IfOk};
ghost use Rattle.far_shared.specs.UnderLock.{IsUnder};
ghost use Rattle.far_shell.specs.Evicting.{AreTried};

use super::outcome::Stop;
use far_sessions::PlanTag;
use far_shared::{Shared, TableTag};
use far_store::{FarStore, Meter};
use far_types::Refusal;
use std::sync::Wait;

/// How many evictions a worker tried, and how many objects they evicted. Only the worker that tries them can count them.
#[derive(Drop, Debug)]
pub struct Evictions {
    tries: u32,
    evicted: u32,
    ghost some: { evicted ≤ tries },
}

impl Evictions {
    ghost use Rattle.std.specs.Prelude.{◌≡◌, ◌<◌, ◌+◌, ◌%◌, ◌-◌, ◌^◌, IfErr, OnOk};
    ghost use Rattle.far_shared.specs.UnderLock.{IsUnder};
    ghost use Rattle.far_shell.specs.Evicting.{IsCounted};

    /// Counts no eviction.
    fn none() -> Evictions
        ensures tries { result.tries ≡ 0 }
        ensures evicted { result.evicted ≡ 0 }
    {
        Evictions {
            tries: 0,
            evicted: 0,
        }
    }

    /// Returns how many evictions were tried.
    pub fn tries(&self) -> u32
        ensures { result ≡ self.now.tries }
    {
        self.tries
    }

    /// Returns how many objects were evicted.
    pub fn evicted(&self) -> u32
        ensures { result ≡ self.now.evicted }
    {
        self.evicted
    }

    /// Tries to evict an object of the next stripe, and counts the try. Ends with `Memory` if a call runs out of memory.
    fn try_next<N: PlanTag, B: TableTag, S: FarStore, R: Wait>(
        &mut self,
        rt: &R,
        shared: &Shared<N, B, S>,
        store: &S,
    ) -> Result<(), Stop>
        requires store { S.store_id store.now ≡ B.store }
        requires few { self.old.tries < 2 ^ 32 - 1 }
        ensures tries { self.new.tries ≡ self.old.tries + 1 }
        ensures counted { OnOk result
            (IsCounted S.number_of S.content (IsUnder N.plan S.is_of B.store) (self.old.tries % 4)
            self.old.evicted self.new.evicted) }
        ensures memory { IfErr result (λ stop. stop ≡ Stop.Memory) }
    {
        let mut meter = Meter::new();
        let gone = shared.evacuate_once(rt, self.tries % 4, store, &mut meter);
        self.tries += 1;
        match gone {
            Ok(Some(_)) => {
                self.evicted += 1;
                Ok(())
            }
            Err(Refusal::NoMemory) => Err(Stop::Memory),
            _ => Ok(()),
        }
    }
}

/// Tries to evict `tries` objects, from each stripe in turn, and counts those that it evicts.
///
/// Ends with `Memory` if a call runs out of memory.
pub(crate) fn evacuate_all<N: PlanTag, B: TableTag, S: FarStore, R: Wait>(
    rt: &R,
    shared: &Shared<N, B, S>,
    store: &S,
    tries: u32,
) -> Result<Evictions, Stop>
    requires store { S.store_id store.now ≡ B.store }
    ensures tries { IfOk result (λ evictions. evictions.tries ≡ tries) }
    ensures tried { IfOk result
        (λ evictions. AreTried S.number_of S.content (IsUnder N.plan S.is_of B.store) tries
        evictions.evicted) }
    ensures memory { IfErr result (λ stop. stop ≡ Stop.Memory) }
{
    let mut evictions = Evictions::none();
    for k in 0..tries {
        evictions.try_next(rt, shared, store)?;
    }
    Ok(evictions)
}

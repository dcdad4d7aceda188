// Objects with their store, and the last job of each kind.
ghost use Rattle.std.specs.Prelude.{ℕ, List, IfOk};
ghost use Rattle.far_scopes.specs.Movement.{AreClean, AreHere};

mod changing;
mod moving;

use crate::evacuator::call::{Call, done};
use crate::fixtures::{Element, digest_of};
use changing::change;
use far_evacuator::{Carried, EvacJob, FetchJob, Fetched};
use far_scopes::{ObjectLimits, Objects};
use far_store::FarStore;
use far_types::Refusal;
use std::alloc::Global;
use std::marker::Model;

/// Objects with their store, and the last job of each kind that was begun and that was carried.
#[derive(Drop)]
pub struct Fixture<'a, T: Element, S: FarStore> {
    store: &'a S,
    objects: Objects<T, S>,
    evac: Option<EvacJob<S>>,
    carried: Option<Carried<S>>,
    fetch: Option<FetchJob<S>>,
    fetched: Option<Fetched<S>>,
}

impl<'a, T: Element, S: FarStore> Model for Fixture<'a, T, S> {
    ghost use Rattle.std.specs.Prelude.{IfSome};
    ghost use Rattle.far_scopes.specs.Movement.{Movement, AreClean, AreHere};
    ghost use Rattle.far_evacuator.specs.Jobs.{IsFormOf};

    ghost Value = { Movement T S.Ticket };

    ghost view = { λ fixture. fixture.objects };

    ghost invariant = { λ fixture. AreHere S.is_of (S.store_id fixture.store.now) fixture.objects × AreClean T.meaning S.content fixture.objects × IfSome fixture.evac (λ job. IsFormOf S.is_of (S.store_id fixture.store.now) job.form) × IfSome fixture.carried (λ carried. S.is_of carried.ticket (S.store_id fixture.store.now)) × IfSome fixture.fetch (λ job. S.is_of job.ticket (S.store_id fixture.store.now)) × IfSome fixture.fetched (λ fetched. S.is_of fetched.job.ticket (S.store_id fixture.store.now)) };
}

impl<'a, T: Element, S: FarStore> Fixture<'a, T, S> {
    /// Returns a fixture without objects and jobs. Refused as `Objects::new` is.
    pub fn new(
        alloc: Global,
        store: &'a S,
        number: u32,
        limits: ObjectLimits,
    ) -> Result<Fixture<'a, T, S>, Refusal> {
        let objects = no_objects(alloc, number, limits)?;
        Ok(Fixture::over(store, objects))
    }

    // Returns a fixture of these objects and their store, without jobs.
    fn over(store: &'a S, objects: Objects<T, S>) -> Fixture<'a, T, S>
        requires here { AreHere S.is_of (S.store_id store.now) objects }
        requires clean { AreClean T.meaning S.content objects }
    {
        Fixture {
            store,
            objects,
            evac: None,
            carried: None,
            fetch: None,
            fetched: None,
        }
    }

    /// Replaces the objects by an empty collection of another frame. The jobs stay.
    pub fn clear(
        &mut self,
        alloc: Global,
        number: u32,
        limits: ObjectLimits,
    ) -> Result<(), Refusal> {
        self.objects = no_objects(alloc, number, limits)?;
        Ok(())
    }

    /// Makes a call, again if it runs out of memory and changed nothing. Returns the number that the call returns, or 0.
    /// Refused with `NoRow` if there is no such object.
    pub fn make(&mut self, alloc: Global, call: &Call<&[T]>) -> Result<u32, Refusal> {
        let before = digest_of(&self.objects);
        match self.make_once(alloc, call) {
            Err(Refusal::NoMemory) if digest_of(&self.objects) == before => {
                self.make_once(alloc, call)
            }
            reply => reply,
        }
    }

    fn make_once(&mut self, alloc: Global, call: &Call<&[T]>) -> Result<u32, Refusal> {
        match call {
            Call::Move(phase) => done(self.move_object(alloc, phase)),
            call => change(&mut self.objects, call),
        }
    }

    /// Returns the list of an object. Refused with `NoRow` if there is no such object, and with `Absent` if it is away.
    pub fn list(&self, o: u32) -> Result<&[T], Refusal> {
        if o >= self.objects.count() {
            return Err(Refusal::NoRow);
        }
        self.objects.lend(o)
    }

    /// Checks that an object may be written. Refused with `NoRow` if there is no such object, and otherwise as
    /// `Objects::may_write` is.
    pub fn may_write(&self, o: u32) -> Result<(), Refusal> {
        if o >= self.objects.count() {
            return Err(Refusal::NoRow);
        }
        self.objects.may_write(o)
    }
}

fn no_objects<T: Element, S: FarStore>(
    alloc: Global,
    number: u32,
    limits: ObjectLimits,
) -> Result<Objects<T, S>, Refusal>
    ensures here { IfOk result (λ m. (id : List ℕ) → AreHere S.is_of id m) }
    ensures clean { IfOk result (AreClean T.meaning S.content) }
{
    if limits.segments > 8 {
        return Err(Refusal::BadSpec);
    }
    match Objects::new(alloc, number, limits) {
        Err(Refusal::NoMemory) => Objects::new(alloc, number, limits),
        reply => reply,
    }
}

// Moves a world to another far store.
ghost use Rattle.std.specs.Prelude.{◌≡◌, ◌⊎◌, ◌+◌, ◌<◌, ◌^◌, [], ◌∷◌, IfOk, IfErr};
ghost use Rattle.far_store.specs.Faults.{faults_of};
ghost use Rattle.far_frame.specs.Jobs.{IsOneOf};
ghost use Rattle.far_frame.specs.Renewing.{IsMigratedTo};
ghost use Rattle.far_frame.specs.TableViews.{table_of};

use super::World;
use crate::frame::migrate;
use crate::waiting::Waiting;
use far_store::FarStore;
use far_types::Refusal;

impl<S: FarStore> World<S> {
    /// Moves the world to another store: puts the content of each object that is away there. All numbers of jobs that were
    /// begun are spent, and the numbering continues.
    ///
    /// A refused call returns the world, jobs included; only its count of faults may have changed. Refused with one of
    /// these:
    ///
    /// - `FarFault` (21): one of the stores fails. The fault is counted.
    /// - `FarFull` (22): the new store has no space for another content.
    /// - `NoMemory` (1): an allocation fails.
    pub fn migrate<N: FarStore>(self, new_store: N) -> Result<World<N>, (Refusal, World<S>)>
        requires few { self.faults < 2 ^ 62 }
        ensures migrated { IfOk result
            (IsMigratedTo S.content N.content (N.store_id new_store) self) }
        ensures table { IfOk result (λ world. table_of world.state ≡ table_of self.state) }
        ensures back { IfErr result
            (λ e. e.1 ≡ record self { faults = self.faults + faults_of e.0 }) }
        ensures cause { IfErr result
            (λ e. e.0 ≡ Refusal.FarFault → S.may_fail ⊎ N.may_fail) }
        ensures refused { IfErr result (λ e. IsOneOf (21 ∷ 22 ∷ 1 ∷ []) e.0) }
    {
        let World {
            alloc,
            frame,
            store,
            begun,
            jobs,
            mut meter,
        } = self;
        match migrate(frame, &store, &new_store, &mut meter) {
            Ok(frame) => Ok(World {
                alloc,
                frame,
                store: new_store,
                begun,
                jobs: Waiting::new(alloc),
                meter,
            }),
            Err((refusal, frame)) => Err((
                refusal,
                World {
                    alloc,
                    frame,
                    store,
                    begun,
                    jobs,
                    meter,
                },
            )),
        }
    }
}

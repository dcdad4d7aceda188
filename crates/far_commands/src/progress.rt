// The table of a script, with the number of commands so far.
ghost use Rattle.std.specs.Prelude.{◌≡◌, ◌≤◌};

use far_frame::World;
use far_store::FarStore;
use std::marker::Model;

/// The table of a script, with the number of commands so far. A command meets at most one fault of the store.
///
/// The lines after a first command are answered over it:
#[derive(Drop)]
pub struct Progress<S: FarStore> {
    pub(crate) world: World<S>,
    pub(crate) number: u32,
}

impl<S: FarStore> Model for Progress<S> {
    ghost use Rattle.std.specs.Prelude.{◌≤◌};
    ghost use Rattle.far_frame.specs.Worlds.{World};
    ghost use Rattle.far_commands.specs.Progress.{At};

    ghost Value = { At (World S.Ticket) };

    ghost view = { λ progress. record { world = progress.world; number = progress.number } };

    ghost invariant = { λ progress. progress.world.faults ≤ progress.number };
}

impl<S: FarStore> Progress<S> {
    /// Returns the state of a script whose first command opened this table.
    pub fn new(world: World<S>) -> Progress<S>
        requires few { world.faults ≤ 1 }
        ensures { result ≡ record { world = world; number = 1 } }
    {
        Progress { world, number: 1 }
    }
}

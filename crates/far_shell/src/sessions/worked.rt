// A session after its edits, and its home stripe.
ghost use Rattle.std.specs.Prelude.{◌≡◌, ◌%◌};
ghost use Rattle.far_sessions.specs.Known.{session_number};

use super::outcome::Stop;
use far_sessions::Session;
use far_shared::TableTag;
use std::marker::Model;

/// A session that has made its edits or was stopped.
#[derive(Drop)]
pub(crate) struct Worked<B: TableTag> {
    pub(crate) session: Session<B>,
    pub(crate) outcome: Result<(), Stop>,
}

impl<B: TableTag> Model for Worked<B> {
    ghost use Rattle.far_shell.specs.Working.{Ended};

    ghost Value = { Ended };

    ghost view = { λ w. record { session = w.session; outcome = w.outcome } };
}

/// Returns the home stripe of a session.
pub(crate) fn home_of<B: TableTag>(me: &Session<B>) -> u32
    ensures { result ≡ session_number me.now % 4 }
{
    (me.number() % 4) as u32
}

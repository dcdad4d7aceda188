// The state of an object.
ghost use Rattle.std.specs.Prelude.{◌≡◌, ◌<◌, length};
ghost use Rattle.far_scopes.specs.Movement.{AreHere};
ghost use Rattle.far_frame.specs.Objects.{state_in};

use far_codec::Elem;
use far_scopes::Objects;
use far_store::FarTickets;

/// The state of an object, which is the chunk of one column in one row group.
#[derive(Clone, Copy, Debug, PartialEq, Eq)]
pub struct ObjectState {
    /// Whether it is in the local region; if not, it is away.
    pub local: bool,
    /// Whether it was written since its far copy was made, or has none.
    pub dirty: bool,
    /// Whether it is local and was used since it was last passed over as a victim or compacted.
    pub hot: bool,
    /// How many pins it has.
    pub pins: u32,
    /// How often it was written.
    pub version: u64,
    /// The number of its newest far copy, if it has one, even if that is outdated.
    pub copy: Option<u64>,
}

/// Returns the state of an object.
pub(crate) fn state_in<T: Elem, S: FarTickets>(
    objects: &Objects<T, S>,
    store: &S,
    o: u32,
) -> ObjectState
    requires within { o < length objects.now.records }
    requires here { AreHere S.is_of (S.store_id store.now) objects.now }
    ensures { result ≡ state_in S.number_of objects.now o }
{
    let word = objects.word(o);
    let copy = match objects.ticket(o) {
        Some(ticket) => Some(store.number(ticket)),
        None => None,
    };
    ObjectState {
        local: objects.is_local(o),
        dirty: word.dirty(),
        hot: word.hot(),
        pins: objects.pins(o),
        version: objects.version(o),
        copy,
    }
}

// Describes a table's objects and space.
ghost use Rattle.std.specs.Prelude.{◌≡◌, Some, IfOk, option_map};
ghost use Rattle.far_scopes.specs.Refusing.{refusal_in};
ghost use Rattle.far_rows.specs.Jobs.{AreAt};
ghost use Rattle.far_rows.specs.Moving.{object_at, object_refusal};
ghost use Rattle.far_frame.specs.Objects.{space_at, space_with, state_of};

use super::Frame;
use crate::object::{ObjectState, state_in};
use crate::space::Space;
use far_codec::Elem;
use far_rows::Object;
use far_scopes::Objects;
use far_store::FarTickets;
use far_types::{Kind, Refusal};

impl<S: FarTickets> Frame<S> {
    /// Returns the state of the object of a row group of a column. Allocates nothing.
    ///
    /// Refused with the first of these that applies:
    ///
    /// - `NoColumn` (4): there is no such column.
    /// - `OutOfRange` (14): the row group has no place.
    pub fn object(&self, store: &S, column: u32, group: u32) -> Result<ObjectState, Refusal>
        requires here { AreAt S.is_of (S.store_id store.now) self.now.rows }
        ensures state { IfOk result
            (λ state. option_map (state_of S.number_of self.now.rows)
            (object_at self.now.rows column group)
            ≡ Some state) }
        ensures refused { refusal_in result ≡ object_refusal self.now.rows column group }
    {
        let rows = self.rows.held();
        let state = match rows.object(column as usize, group)? {
            Object::Number(o) => state_in(rows.number_objects(), store, o),
            Object::Text(o) => state_in(rows.text_objects(), store, o),
        };
        Ok(state)
    }

    /// Returns the space of the local region of a kind. Allocates nothing.
    pub fn space(&self, kind: Kind) -> Space
        ensures { result ≡ space_at self.now kind }
    {
        let limits = self.limits();
        let rows = self.rows.held();
        match kind {
            Kind::Int => space_of(rows.number_objects(), limits.int_segments, limits.int_size),
            Kind::Text => space_of(rows.text_objects(), limits.text_segments, limits.text_size),
        }
    }
}

// Returns the space of the local region of some objects.
fn space_of<T: Elem, S: FarTickets>(objects: &Objects<T, S>, segments: u32, size: u32) -> Space
    ensures { result ≡ space_with objects.now.memory.state segments size }
{
    let free = objects.space();
    Space {
        used: (objects.capacity() - free) as u64,
        free: free as u64,
        segments,
        size,
    }
}

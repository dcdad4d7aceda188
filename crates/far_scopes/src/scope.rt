// Scopes: objects that are pinned together.
use std::marker::Model;

/// The pins that one call of `Objects::enter` added, one for each listing of an object. In contracts it is the list of object numbers,
/// in the order in which they were listed.
///
/// `Objects::close` must consume each scope: code that drops a scope does not compile.
pub struct Scope {
    pub(crate) objects: Vec<u32>,
}

impl Model for Scope {
    ghost use Rattle.std.specs.Prelude.{ℕ, List};

    ghost Value = { List ℕ };

    ghost use Rattle.std.specs.Prelude.{◌<◌, ◌^◌, length};

    ghost view = { λ s. s.objects.items };

    ghost invariant = { λ s. length s.objects.items < 2 ^ 32 };
}

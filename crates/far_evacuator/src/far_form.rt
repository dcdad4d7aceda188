// Far forms that jobs hold.
use std::marker::Model;

/// The far form of a list, owned by a job. Contracts see its bytes.
#[derive(Drop)]
pub struct FarForm {
    pub(crate) bytes: Vec<u8>,
}

impl Model for FarForm {
    ghost use Rattle.std.specs.Prelude.{ℕ, List};

    ghost Value = { List ℕ };

    ghost view = { λ form. form.bytes.items };
}

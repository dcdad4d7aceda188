// The output of a script: replies that are collected before they are written.
ghost use Rattle.std.specs.Prelude.{IsTrue};

mod gathering;
mod writing;

use super::page::Page;
use super::sink::Sink;
use std::marker::PhantomData;

/// The replies that were printed and not yet written, for writers of the type `W`.
#[derive(Drop)]
pub struct Output<W: Sink> {
    /// The replies that were added and not yet written.
    pub page: Page,
    /// The reply that is being printed. It is added once it is complete.
    pub reply: Page,
    /// Whether a write failed. Nothing is written after that. Private, so that only the files of `output` can clear it.
    failed: bool,
    of: PhantomData<W>,
    ghost cause: { IsTrue failed → IsTrue W.may_fail },
}

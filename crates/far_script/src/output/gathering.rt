// Adds replies to an output.
ghost use Rattle.std.specs.Prelude.{◌≡◌, [], ◌++◌, OnOk, OnErr, IfErr, IsOk};
ghost use Rattle.far_script.specs.Flow.{has_failed};
ghost use Rattle.far_script.specs.Printing.{refusal_text};

use super::Output;
use crate::fault::ShellFault;
use crate::page::Page;
use crate::print::refused;
use crate::sink::Sink;
use far_types::Refusal;
use std::alloc::{AllocError, Global};
use std::marker::PhantomData;
use std::mem::swap;

impl<W: Sink> Output<W> {
    /// Returns an empty output. Allocates nothing.
    pub fn new(alloc: Global) -> Output<W>
        ensures { result.page ≡ [] }
    {
        Output {
            page: Page::new(alloc),
            reply: Page::new(alloc),
            failed: false,
            of: PhantomData,
        }
    }

    /// Adds the current reply. A long one is not copied: the replies before it are put before it, and the two pages change
    /// places. Ends with `Memory`, and adds nothing, if memory runs out.
    pub fn add(&mut self) -> Result<(), ShellFault>
        ensures ok { OnOk result (self.new.page ≡ self.old.page ++ self.old.reply) }
        ensures err { OnErr result (self.new.page ≡ self.old.page) }
        ensures failed { has_failed self.new ≡ has_failed self.old }
        ensures memory { IfErr result (λ fault. fault ≡ ShellFault.Memory) }
    {
        if self.reply.len() > self.page.len() {
            self.reply.bytes_before(self.page.as_slice())?;
            swap(&mut self.page, &mut self.reply);
            return Ok(());
        }
        self.page.bytes(self.reply.as_slice())?;
        Ok(())
    }

    /// Adds the current reply if `printed` says that it is complete. Ends with `Memory`, and adds nothing, if it is not or
    /// if memory runs out now. Inlined, since each step ends with it.
    #[inline(always)]
    pub fn add_printed(&mut self, printed: Result<(), AllocError>) -> Result<(), ShellFault>
        ensures printed { OnOk result (IsOk printed) }
        ensures ok { OnOk result (self.new.page ≡ self.old.page ++ self.old.reply) }
        ensures err { OnErr result (self.new.page ≡ self.old.page) }
        ensures failed { has_failed self.new ≡ has_failed self.old }
        ensures memory { IfErr result (λ fault. fault ≡ ShellFault.Memory) }
    {
        printed?;
        self.add()
    }

    /// Adds a text as a reply. Ends with `Memory`, and adds nothing, if memory runs out.
    pub fn add_text(&mut self, text: &str) -> Result<(), ShellFault>
        ensures ok { OnOk result (self.new.page ≡ self.old.page ++ text.now) }
        ensures err { OnErr result (self.new.page ≡ self.old.page) }
        ensures failed { has_failed self.new ≡ has_failed self.old }
        ensures memory { IfErr result (λ fault. fault ≡ ShellFault.Memory) }
    {
        self.page.text(text)?;
        Ok(())
    }

    /// Adds the line of a refusal as a reply. Ends with `Memory`, and adds nothing, if memory runs out.
    pub fn add_refusal(&mut self, refusal: &Refusal) -> Result<(), ShellFault>
        ensures ok { OnOk result (self.new.page ≡ self.old.page ++ refusal_text refusal.now) }
        ensures err { OnErr result (self.new.page ≡ self.old.page) }
        ensures failed { has_failed self.new ≡ has_failed self.old }
        ensures memory { IfErr result (λ fault. fault ≡ ShellFault.Memory) }
    {
        self.reply.truncate(0);
        refused(&mut self.reply, refusal)?;
        self.add()
    }
}

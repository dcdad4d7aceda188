// Reads the places of a batch of sets ahead.
ghost use Rattle.std.specs.Prelude.{◌≡◌, ◌≤◌, length};

use super::Table;
use far_frame::READ_AHEAD;

/// A block with fewer places is not read ahead.
const LEAST: usize = 4;

/// A table with fewer places is not read ahead, since the caches of a processor mostly hold it.
const SMALL: u32 = 65_536;

/// A block whose first and last place are nearer than this is not read ahead: it goes through the table in order, which the
/// processor foresees.
const NEAR: u32 = 256;

impl Table {
    /// If a block of a batch's places begins at an index, reads what sets of a column there need, before they are made
    /// ([`Frame::read_ahead`](far_frame::Frame::read_ahead)). The table stays as it is.
    #[inline(always)]
    pub fn read_ahead(&mut self, column: u32, places: &[u32], index: usize)
        requires { index ≤ length places.now }
        ensures { self.new ≡ self.old }
    {
        if index % READ_AHEAD == 0 {
            let rest = &places[index..];
            self.read_block(column, &rest[..rest.len().min(READ_AHEAD)]);
        }
    }

    // Reads ahead what sets of a column at these places need, unless they are few or near each other.
    fn read_block(&mut self, column: u32, block: &[u32])
        ensures { self.new ≡ self.old }
    {
        if block.len() < LEAST || self.world.frame().places() < SMALL {
            return;
        }
        let across = block[block.len() - 1].abs_diff(block[0]);
        if across < NEAR {
            return;
        }
        self.read = self
            .read
            .wrapping_add(self.world.frame().read_ahead(column, block));
    }
}

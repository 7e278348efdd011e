//! The bodies of the rows that are written.

ghost use Rattle.std.specs.Prelude.{◌≤◌, length};

use crate::generator::Generator;
use std::alloc::{AllocError, Global};

/// The bytes of which every body is a part.
#[derive(Drop)]
pub(crate) struct Bodies {
    alloc: Global,
    bytes: Vec<u8>,
}

impl Bodies {
    /// Draws the bytes.
    pub(crate) fn draw(alloc: Global, generator: &mut Generator) -> Result<Bodies, AllocError> {
        let mut bytes = Vec::new(alloc);
        for _ in 0..4096usize {
            bytes.push(generator.below(256) as u8)?;
        }
        Ok(Bodies { alloc, bytes })
    }

    // The bytes from this place on, as many as are asked for, or all that there are.
    fn part(&self, from: u16, count: u16) -> &[u8]
        ensures { length result.now ≤ count }
    {
        let bytes = self.bytes.as_slice();
        let start = (from as usize).min(bytes.len());
        let end = (start + count as usize).min(bytes.len());
        &bytes[start..end]
    }

    /// A body of so many bytes from this place on, or of all that there are.
    pub(crate) fn body(&self, from: u16, count: u16) -> Result<Vec<u8>, AllocError> {
        Vec::from_slice(self.alloc, self.part(from, count))
    }
}

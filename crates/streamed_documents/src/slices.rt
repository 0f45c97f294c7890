//! A source that gives bytes that are at hand.
ghost use Rattle.std.specs.Prelude.{◌≡◌, Some};

use unity_base::{Failed, Source};

/// A source that gives these bytes, as many in a call as fit, and never fails.
#[derive(Drop)]
pub(crate) struct SliceSource<'a> {
    left: &'a [u8],
}

impl<'a> SliceSource<'a> {
    ghost use Rattle.streamed_documents.specs.Slices.{slice_bytes};

    pub(crate) fn new(bytes: &'a [u8]) -> SliceSource<'a>
        ensures { slice_bytes result ≡ bytes.now }
    {
        SliceSource { left: bytes }
    }
}

impl<'a> Source for SliceSource<'a> {
    ghost use Rattle.streamed_documents.specs.Slices.{slice_bytes};

    ghost left = { λ s. Some (slice_bytes s) };

    ghost faults = { λ _. 0 };

    fn read(&mut self, buf: &mut [u8]) -> Result<usize, Failed> {
        let count = buf.len().min(self.left.len());
        let (given, left) = self.left.split_at(count);
        buf[..count].copy_from_slice(given);
        self.left = left;
        Ok(count)
    }
}

// A source in memory that gives its bytes one by one.
ghost use Rattle.std.specs.Prelude.{◌≡◌, ◌≤◌, min, length, drop, Some, vec_len, IsOk, IfOk};
ghost use Rattle.std.specs.Io.{ReadsAtMost};
ghost use Rattle.std.specs.Io.KnownBytes.{ReadConsumes};
ghost use Rattle.unity_base.specs.Streams.{HasCause};

use crate::{Failed, Source};

/// A source that gives these bytes, one in a call, and never fails.
#[derive(Drop)]
pub struct DripSource {
    bytes: Vec<u8>,
    at: usize,
    ghost in_bytes: { at ≤ vec_len bytes },
}

impl DripSource {
    ghost use Rattle.unity_base.specs.Memory.{drip_bytes};

    pub fn new(bytes: Vec<u8>) -> DripSource
        ensures { drip_bytes result ≡ bytes.items }
    {
        DripSource { bytes, at: 0 }
    }
}

impl Source for DripSource {
    ghost use Rattle.unity_base.specs.Memory.{drip_bytes};

    ghost left = { λ s. Some (drop s.at s.bytes.items) };

    ghost faults = { λ _. 0 };

    fn read(&mut self, buf: &mut [u8]) -> Result<usize, Failed>
        ensures bound { ReadsAtMost result buf.new }
        ensures bytes { ReadConsumes (Some (drip_bytes self.old)) (Some (drip_bytes self.new)) result buf.new }
        ensures cause { HasCause 0 0 result }

        // It never fails, and gives one byte where there is one and room for it.
        ensures never { IsOk result }
        ensures one { IfOk result (λ n. n ≡ min 1 (min (length buf.new) (length (drip_bytes self.old)))) }
    {
        let count = buf.len().min(self.bytes.len() - self.at).min(1);
        buf[..count].copy_from_slice(&self.bytes[self.at..self.at + count]);
        self.at += count;
        Ok(count)
    }
}

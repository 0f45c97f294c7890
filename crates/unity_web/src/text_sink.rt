// A sink for a text of any length.
ghost use Rattle.std.specs.Prelude.{◌≡◌, []};

use std::alloc::Global;
use unity_base::{Failed, Sink};

/// A sink that grows as it is written to. It fails where memory is refused alone.
#[derive(Drop)]
pub struct TextSink {
    text: Vec<u8>,
    faults: u64,
}

impl TextSink {
    pub fn new(alloc: Global) -> TextSink
        ensures text { result.text.items ≡ [] }
        ensures faults { result.faults ≡ 0 }
    {
        TextSink {
            text: Vec::new(alloc),
            faults: 0,
        }
    }

    pub fn text(&self) -> &[u8]
        ensures { result.now ≡ self.now.text.items }
    {
        self.text.as_slice()
    }
}

impl Sink for TextSink {
    ghost use Rattle.std.specs.Prelude.{Some};

    ghost written = { λ s. Some s.text.items };

    ghost faults = { λ s. s.faults };

    fn write(&mut self, piece: &[u8]) -> Result<usize, Failed> {
        if self.text.extend_from_slice(piece).is_err() {
            self.faults = self.faults.saturating_add(1);
            return Err(Failed);
        }
        Ok(piece.len())
    }
}

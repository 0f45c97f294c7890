// A sink for a text of any length.
ghost use Rattle.std.specs.Prelude.{◌≡◌, Some};

use unity_base::{Failed, Sink};

// A sink that grows as it is written to. It fails where memory is refused alone.
#[derive(Drop)]
pub(crate) struct TextSink {
    text: Vec<u8>,
    faults: u64,
}

impl TextSink {
    // A sink that begins with this text.
    pub(crate) fn new(text: Vec<u8>) -> TextSink
        ensures { result.text.items ≡ text.items }
    {
        TextSink { text, faults: 0 }
    }

    // The text that was written.
    pub(crate) fn into_text(self) -> Vec<u8>
        ensures { result.items ≡ self.text.items }
    {
        let TextSink { text, faults: _ } = self;
        text
    }
}

impl Sink for TextSink {
    ghost written = { λ s. Some s.text.items };

    ghost faults = { λ s. s.faults };

    fn write(&mut self, piece: &[u8]) -> Result<usize, Failed> {
        if self.text.extend_from_slice(piece).is_err() {
            self.faults = self.faults.saturating_add(1);
            return Err(Failed);
        }
        Ok(piece.len())
    }
}

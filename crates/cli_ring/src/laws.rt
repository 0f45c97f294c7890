// A law of the ring's bytes. The function does nothing: it states it.
ghost use Rattle.cli_ring.specs.Laws.{RingsHaveLengths};

/// The ring of n places has 464 bytes, and eight times the digits of n - 1.
pub fn ring_laws()
    ensures { RingsHaveLengths }
{}

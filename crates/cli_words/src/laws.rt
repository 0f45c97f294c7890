// The laws of words. The functions do nothing: they state them.
ghost use Rattle.cli_words.specs.Laws.{NumbersAreDecimal, RequestsAreAsked};

/// A word is a number, no greater than some other, exactly where it is the decimal of that number.
pub fn number_laws()
    ensures { NumbersAreDecimal }
{}

/// Words ask for something exactly where they are the words for it.
pub fn request_laws()
    ensures { RequestsAreAsked }
{}

// The laws of upgraded texts. The function does nothing: it states them.
ghost use Rattle.upgraded_texts.specs.TextLaws.{NumberIsInside, UpgradedIsAsLong, SecondComesBack, UpgradedIsRead};

/// The text of a document has a byte at the place of the version's number. With a `2` there it is the document in
/// version 2, and as long as it was; and a text of version 2 comes back as it is.
pub fn text_laws()
    ensures inside { NumberIsInside }
    ensures size { UpgradedIsAsLong }
    ensures second { SecondComesBack }
    ensures read { UpgradedIsRead }
{}

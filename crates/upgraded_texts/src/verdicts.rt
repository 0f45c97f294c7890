// The laws of documents in version 2. The function does nothing: it states them.
ghost use Rattle.upgraded_texts.specs.VerdictLaws.{UpgradedIsNamed, UpgradedExpands, UpgradedCore, UpgradedIsAccepted};

/// A document in version 2 is well named where the document is, has the same fault of expansion, and its core form is
/// the same but for the version. Certificates with which a document is accepted are so in version 2, with the same
/// plan.
pub fn verdict_laws()
    ensures named { UpgradedIsNamed }
    ensures expands { UpgradedExpands }
    ensures core { UpgradedCore }
    ensures accepted { UpgradedIsAccepted }
{}

// What excludes a status that is told for all words.
ghost use Rattle.unity_cli.specs.declared.status.Status.{Status};
ghost use Rattle.wrong_answers.specs.Excluded.{IsExcluded};

/// For each status there are words for which the clause `answer` of `unity` does not allow it, whatever the bytes are:
/// so that clause refuses a body that tells one status with a text for all words. This function does nothing: it states
/// the law.
pub fn no_status_for_all()
    ensures { (status : Status) → IsExcluded status }
{}

ghost use Rattle.std.specs.Prelude.{◌≡◌};
ghost use Rattle.tr_wait.specs.Words.{IsStatus, word};
ghost use Rattle.tr_wait.specs.declared.status.Status.{Status};

/// No two statuses have one word.
pub fn words_differ()
    ensures { (s t : Status) → IsStatus s → IsStatus t → word s ≡ word t → s ≡ t }
{}

//! Laws that tie the computed form of what the relaxed-file machine allows to its relation.

ghost use Rattle.protocol_allowed.specs.Laws.{WhatIsAllowedIsComputed, WhatIsComputedIsAllowed};

/// Each action that the computed form allows is one that the machine allows.
pub fn what_is_computed_is_allowed()
    ensures { WhatIsComputedIsAllowed }
{}

/// In each state of a run, the computed form allows each action that the machine allows.
pub fn what_is_allowed_is_computed()
    ensures { WhatIsAllowedIsComputed }
{}

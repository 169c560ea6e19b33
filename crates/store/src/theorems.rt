//! What follows from the definitions. Each function stands for the theorem in its contract.
ghost use Rattle.store.specs.Theorems.{NeverTorn, WorkedCuts};

/// No write tears a record, in whatever store.
pub fn never_torn()
    ensures { NeverTorn }
{}

/// Two worked cuts of a ring.
pub fn worked_cuts()
    ensures { WorkedCuts }
{}

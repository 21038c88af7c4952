// The law over runs.
ghost use Rattle.soft.specs.Whole.{whole};
ghost use Rattle.receiver.specs.Law.{Adding, LawOverRuns, StepsRuled};

use soft::soft::Soft;

// What holds of every list of calls to a new receiver, for any maps and this kind of soft number.
// The sizes of whole numbers add, so that there the law speaks of Rep too.
pub fn law_over_runs<S: Soft>(_like: &S)
    ensures law { LawOverRuns S.Soft.kind }
    ensures ruled { StepsRuled S.Soft.kind }
    ensures adding { Adding whole }
{}

// Worked examples: a table of small cases, proved about the definitions that the contracts cite.
#![tactic(auto)]

ghost use Rattle.examples.specs.Worked.{WorkedExamples, WorkedReports};

// Every row of the table of worked examples holds, and its refusals are reported by their numbers and places.
pub fn worked_examples()
    ensures rows { WorkedExamples }
    ensures reports { WorkedReports }
{}

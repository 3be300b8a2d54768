// Worked cases: positions with what becomes of every order in them, as one theorem about the definitions.
#![tactic(auto)]

ghost use Rattle.cases.specs.Cases.{AllCases};

// All worked cases come out as they are written down.
pub fn worked_cases_stand()
    ensures { AllCases }
{}

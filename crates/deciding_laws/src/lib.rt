// Theorems about deciding, each named in the contract of a function of its own.
#![tactic(auto)]

ghost use Rattle.deciding_laws.specs.Consistent.{OutcomeConsistent};
ghost use Rattle.deciding_laws.specs.Forced.{Forced, ForcedAfterParadox};
ghost use Rattle.deciding_laws.specs.Dislodged.{DislodgedByOne};
ghost use Rattle.deciding_laws.specs.Rounds.{RoundsEnd, ParadoxOnce, RingsOnly};
ghost use Rattle.deciding_laws.specs.UnitsApart.{UnitsApart};
ghost use Rattle.deciding_laws.specs.PlainAgrees.{PlainAgrees};
ghost use Rattle.deciding_laws.specs.Answers.{AnswersKeepRules, DecidedIsNecessary, RuledDislodgesByOne, OneAnswer};
ghost use Rattle.deciding_laws.specs.Promises.{DecidingIsRight};

// Nothing is open in an outcome, and everything in it is as all the others decide it.
pub fn outcome_consistent_stands()
    ensures { OutcomeConsistent }
{}

// What rounds decide is so in every consistent assignment.
pub fn forced_stands()
    ensures { Forced }
{}

// The same after the paradox rule, with the same armies stranded.
pub fn forced_after_paradox_stands()
    ensures { ForcedAfterParadox }
{}

// Whoever is dislodged is so by one move, of a foreign power.
pub fn dislodged_by_one_stands()
    ensures { DislodgedByOne }
{}

// Rounds only decide more, and end after as many as there are units.
pub fn rounds_end_stands()
    ensures { RoundsEnd }
{}

// After the paradox rule there is no second paradox.
pub fn paradox_once_stands()
    ensures { ParadoxOnce }
{}

// What is open when all is settled goes round in rings.
pub fn rings_only_stands()
    ensures { RingsOnly }
{}

// After the moves no two units stand in one region.
pub fn units_apart_stands()
    ensures { UnitsApart }
{}

// Where everything is yes or no, the rules with spans say what the plain rules say.
pub fn plain_agrees_stands()
    ensures { PlainAgrees }
{}

// The answers keep the plain rules.
pub fn answers_keep_rules_stands()
    ensures { AnswersKeepRules }
{}

// What rounds decide is so in every assignment that keeps the plain rules.
pub fn decided_is_necessary_stands()
    ensures { DecidedIsNecessary }
{}

// By the plain rules, whoever is dislodged is so by one move, of a foreign power.
pub fn ruled_dislodges_by_one_stands()
    ensures { RuledDislodgesByOne }
{}

// Where nothing is left open, one assignment keeps the rules: the answers.
pub fn one_answer_stands()
    ensures { OneAnswer }
{}

// All that is promised of deciding.
pub fn deciding_is_right()
    ensures { DecidingIsRight }
{}

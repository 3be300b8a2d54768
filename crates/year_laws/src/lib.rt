// Theorems about the year, each named in a contract.
#![tactic(auto)]

ghost use Rattle.year_laws.specs.Kept.{LawfulKept, LawfulPlayed, LawfulTested, LawfulBounded};
ghost use Rattle.year_laws.specs.Counts.{NobodyGains, MovesLoseNobody, WinterBalances};
ghost use Rattle.year_laws.specs.MoveLaw.{MoveLaw, DislodgeLaw};
ghost use Rattle.year_laws.specs.BarredLaw.{BarredLaw};
ghost use Rattle.year_laws.specs.RetreatLaw.{RetreatLaw};
ghost use Rattle.year_laws.specs.OwnerLaw.{AutumnOwners, OwnersStay};
ghost use Rattle.year_laws.specs.WinterLaw.{WinterLaw};

// Whatever is written, a lawful game on a good board leads to a lawful one.
pub fn lawful_stands()
    ensures { LawfulKept }
{}

// And so over any number of phases.
pub fn lawful_played_stands()
    ensures { LawfulPlayed }
{}

// The test for lawful games says just what the named facts say.
pub fn lawful_tested_stands()
    ensures { LawfulTested }
{}

// No more units, and no more dislodged, than regions; every number in a lawful game is one that there is.
pub fn lawful_bounded_stands()
    ensures { LawfulBounded }
{}

// Nobody gains a unit but in winter.
pub fn nobody_gains_stands()
    ensures { NobodyGains }
{}

// Moves lose nobody: whoever is dislodged still waits.
pub fn moves_lose_nobody_stands()
    ensures { MovesLoseNobody }
{}

// After a winter nobody has more units than centres.
pub fn winter_balances_stands()
    ensures { WinterBalances }
{}

// After moves there stand just those whom nobody dislodged, where their moves took them.
pub fn moves_stand()
    ensures { MoveLaw }
{}

// After moves just those are dislodged into whose region another moved while they stayed.
pub fn dislodged_stand()
    ensures { DislodgeLaw }
{}

// Just those regions are barred to which some move with a path came to nothing.
pub fn barred_stands()
    ensures { BarredLaw }
{}

// After retreats there stand just those who stood before and those who survived.
pub fn retreats_stand()
    ensures { RetreatLaw }
{}

// After the autumn's retreats a centre belongs to whoever stands on it, else to whom it belonged.
pub fn autumn_owners_stand()
    ensures { AutumnOwners }
{}

// At no other time does a centre change hands.
pub fn owners_stay_stands()
    ensures { OwnersStay }
{}

// Who goes and who comes in winter.
pub fn winter_stands()
    ensures { WinterLaw }
{}

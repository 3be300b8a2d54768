// What is so of the names of every board's file that is read.
#![tactic(auto)]

ghost use Rattle.names_laws.specs.Names.{BoardNamesGood};

// Its names are names, each stands for its own region, and its words come in whole rows.
pub fn board_names_good_stands()
    ensures { BoardNamesGood }
{}

// The main promise: all that is shown of the referee, in one statement.
#![tactic(auto)]

ghost use Rattle.promise.specs.Promise.{MainPromise, TurnKept};

// Of every good board, every lawful game, anything written and any calls.
pub fn main_promise_stands()
    ensures { MainPromise }
{}

// Of one phase, from any lawful game on a good board.
pub fn turn_promise_stands()
    ensures { TurnKept }
{}

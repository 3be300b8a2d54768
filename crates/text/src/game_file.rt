// A game's file: its phase, units, those dislodged, barred regions and owners.
ghost use Rattle.std.specs.Prelude.{◌≡◌, ℕ, ◌+◌, ◌<◌, ◌≤◌, Bool, true, false, cond, List, [], ◌∷◌, ◌++◌, length, IfOk};
ghost use Rattle.text.specs.declared.game_file.GameLine.TheVariants.{Owner};
ghost use Rattle.text.specs.Refusal.{Reads, Steps, Advances, Answers};
ghost use Rattle.text.specs.Names.{names_of};
ghost use Rattle.text.specs.Reader.{left};
ghost use Rattle.text.specs.GameFile.{GameEntries, unit_form, out_form, barred_form, owner_form, game_form, game_step, game_file, no_game, with_line, from_word, game_entries};

use super::lines::{Line, within_limit};
use super::names::Names;
use super::reader::{Reader, read_whole};
use super::refusal::{Fault, Refusal};
use super::words::{Words, word};
use std::alloc::{AllocError, Global};

// One line as it is read. An owner is its power plus 1.
// Numbers and no enums, as they are the words of the call that is made of the file.
#[derive(Clone, Copy)]
pub(super) enum GameLine {
    Phase(u32),
    Standing {
        power: u32,
        region: usize,
        fleet: u32,
    },
    Out {
        power: u32,
        region: usize,
        fleet: u32,
        from: Option<usize>,
    },
    Barred(usize),
    Owner {
        owner: u32,
        region: usize,
    },
}

// Units as three words each, those dislodged as four, owners as one for each region: flat, as the words of a call are.
#[derive(Drop)]
pub struct GameFile {
    pub phase: Option<u32>,
    pub units: Vec<u32>,
    pub outs: Vec<u32>,
    pub barred: Vec<u32>,
    pub owners: Vec<u32>,
}

// P army|fleet NAME. This and the next are two forms of the format, each with its definition.
fn unit_line(names: &Names, mut words: Words) -> Result<GameLine, Refusal>
    ensures { Reads (λ x. x) (unit_form (names_of names.now) (left words.entry)) words.entry.line result }
{
    let power = words.power()?;
    let fleet = words.arm()?;
    let region = words.name(names)?;
    words.end()?;
    Ok(GameLine::Standing {
        power,
        region,
        fleet,
    })
}

// P army|fleet NAME [from NAME]
fn out_line(names: &Names, mut words: Words) -> Result<GameLine, Refusal>
    ensures { Reads (λ x. x) (out_form (names_of names.now) (left words.entry)) words.entry.line result }
{
    let power = words.power()?;
    let fleet = words.arm()?;
    let region = words.name(names)?;
    let from = if words.skip(b"from") {
        Some(words.name(names)?)
    } else {
        None
    };
    words.end()?;
    Ok(GameLine::Out {
        power,
        region,
        fleet,
        from,
    })
}

// NAME
fn barred_line(names: &Names, mut words: Words) -> Result<GameLine, Refusal>
    ensures { Reads (λ x. x) (barred_form (names_of names.now) (left words.entry)) words.entry.line result }
{
    let region = words.name(names)?;
    words.end()?;
    Ok(GameLine::Barred(region))
}

// P NAME
fn owner_line(names: &Names, mut words: Words) -> Result<GameLine, Refusal>
    ensures { Reads (λ x. x) (owner_form (names_of names.now) (left words.entry)) words.entry.line result }
{
    let owner = words.power()? + 1;
    let region = words.name(names)?;
    words.end()?;
    Ok(GameLine::Owner { owner, region })
}

fn game_line(names: &Names, mut words: Words) -> Result<GameLine, Refusal>
    ensures { Reads (λ x. x) (game_form (names_of names.now) (left words.entry)) words.entry.line result }
{
    if words.skip(b"phase") {
        Ok(GameLine::Phase(words.phase_alone()?))
    } else if words.skip(b"unit") {
        unit_line(names, words)
    } else if words.skip(b"out") {
        out_line(names, words)
    } else if words.skip(b"barred") {
        barred_line(names, words)
    } else if words.skip(b"owner") {
        owner_line(names, words)
    } else {
        Err(words.unreadable())
    }
}

// 0, or one more than the region that the attack came from.
fn from_word(from: Option<usize>) -> Result<u32, AllocError>
    ensures { IfOk result (λ w. w ≡ from_word from) }
{
    match from {
        Some(region) => Ok(word(region)? + 1),
        None => Ok(0),
    }
}

impl GameFile {
    fn new(heap: Global, regions: usize) -> Result<GameFile, AllocError>
        ensures { IfOk result (λ game. game_entries game ≡ no_game regions) }
    {
        let owners = vec![in heap; 0u32; regions]?;
        Ok(GameFile {
            phase: None,
            units: Vec::new(heap),
            outs: Vec::new(heap),
            barred: Vec::new(heap),
            owners,
        })
    }

    // A second owner of a region is refused.
    fn own(&mut self, owner: u32, region: usize, line: u32) -> Result<(), Refusal>
        ensures { Steps (with_line (game_entries self.old) (Owner owner region)) line (game_entries self.new) result }
    {
        if region < self.owners.len() {
            if self.owners[region] != 0 {
                return Err(Refusal::unreadable(line));
            }
            self.owners[region] = owner;
        }
        Ok(())
    }

    fn add(&mut self, entry: GameLine, line: u32) -> Result<(), Fault>
        ensures { Advances (with_line (game_entries self.old) entry) line (game_entries self.new) result }
    {
        match entry {
            GameLine::Phase(n) => {
                if self.phase.is_some() {
                    return Err(Fault::At(Refusal::unreadable(line)));
                }
                self.phase = Some(n);
            }
            GameLine::Standing {
                power,
                region,
                fleet,
            } => {
                self.units
                    .extend_from_slice(&[power, word(region)?, fleet])?;
            }
            GameLine::Out {
                power,
                region,
                fleet,
                from,
            } => {
                self.outs
                    .extend_from_slice(&[power, word(region)?, fleet, from_word(from)?])?;
            }
            GameLine::Barred(region) => self.barred.push(word(region)?)?,
            GameLine::Owner { owner, region } => self.own(owner, region, line)?,
        }
        Ok(())
    }
}

// The regions' names stand in the board's file.
#[derive(Drop)]
struct GameReader<'n, 'a> {
    names: &'n Names<'a>,
    game: GameFile,
}

impl<'l, 'n, 'a> Reader<'l> for GameReader<'n, 'a> {
    ghost Known = { GameEntries };

    ghost known = { λ reader. game_entries reader.game };

    ghost step = { λ reader. game_step (names_of reader.names.now) };

    fn read(&mut self, line: Line<'l>) -> Result<(), Fault> {
        let Some(words) = line.words()? else {
            return Ok(());
        };
        let entry = game_line(self.names, words)?;
        self.game.add(entry, line.number)?;
        Ok(())
    }
}

pub fn read_game(heap: Global, names: &Names, text: &[u8]) -> Result<GameFile, Fault>
    ensures { Answers game_entries (game_file (names_of names.now) text.now) result }
{
    // Asked here too, since the owners' list wants memory: a file that is too long is refused all the same.
    within_limit(text)?;
    let game = GameFile::new(heap, names.count())?;
    let reader = read_whole(GameReader { names, game }, text)?;
    Ok(reader.game)
}

// A board's file: its names, its regions and its edges.
ghost use Rattle.std.specs.Prelude.{◌≡◌, ℕ, ◌+◌, ◌<◌, ◌≤◌, Bool, true, false, cond, List, [], ◌∷◌, ◌++◌, OnOk};
ghost use Rattle.text.specs.Refusal.{Reads, Answers};
ghost use Rattle.text.specs.Names.{names_of};
ghost use Rattle.text.specs.Reader.{left};
ghost use Rattle.text.specs.BoardFile.{BoardEntries, region_form, edge_form, board_form, board_step, board_file, no_board, with_entry, entry_of, board_entries};

use super::lines::Line;
use super::names::Names;
use super::reader::{Reader, read_whole};
use super::refusal::{Fault, Refusal};
use super::words::{Words, word};
use std::alloc::{AllocError, Global};

// One line as it is read: a region with its name, its kind, 1 for a centre, and 0 or its home's power plus 1; or an edge.
// Numbers and no enums, as they are the words of the call that is made of the file.
#[derive(Clone, Copy)]
pub(super) enum BoardLine<'a> {
    Region {
        name: &'a [u8],
        kind: u32,
        centre: u32,
        home: u32,
    },
    March {
        one: usize,
        two: usize,
    },
    Sail {
        one: usize,
        two: usize,
    },
}

// Regions as three words each, edges as two, in the order of their lines: flat, as the words of a call are.
#[derive(Drop)]
pub struct BoardFile<'a> {
    pub names: Names<'a>,
    pub regions: Vec<u32>,
    pub march: Vec<u32>,
    pub sail: Vec<u32>,
}

// NAME land|coast|sea [centre] [home P]. Names stand beside words here and below: they grow while a board's lines are read.
fn region_line<'a>(names: &Names<'a>, mut words: Words<'a>) -> Result<BoardLine<'a>, Refusal>
    ensures { Reads entry_of (region_form (names_of names.now) (left words.entry)) words.entry.line result }
{
    let name = words.new_name(names)?;
    let kind = words.kind()?;
    let centre = if words.skip(b"centre") { 1 } else { 0 };
    let home = if words.skip(b"home") {
        words.power()? + 1
    } else {
        0
    };
    words.end()?;
    Ok(BoardLine::Region {
        name,
        kind,
        centre,
        home,
    })
}

// NAME NAME
fn edge_line<'a>(names: &Names<'a>, mut words: Words<'a>) -> Result<(usize, usize), Refusal>
    ensures { Reads (λ edge. edge) (edge_form (names_of names.now) (left words.entry)) words.entry.line result }
{
    let one = words.name(names)?;
    let two = words.name(names)?;
    words.end()?;
    Ok((one, two))
}

fn board_line<'a>(names: &Names<'a>, mut words: Words<'a>) -> Result<BoardLine<'a>, Refusal>
    ensures { Reads entry_of (board_form (names_of names.now) (left words.entry)) words.entry.line result }
{
    if words.skip(b"region") {
        region_line(names, words)
    } else if words.skip(b"march") {
        let (one, two) = edge_line(names, words)?;
        Ok(BoardLine::March { one, two })
    } else if words.skip(b"sail") {
        let (one, two) = edge_line(names, words)?;
        Ok(BoardLine::Sail { one, two })
    } else {
        Err(words.unreadable())
    }
}

impl<'a> BoardFile<'a> {
    fn new(heap: Global) -> BoardFile<'a>
        ensures { board_entries result ≡ no_board }
    {
        BoardFile {
            names: Names::new(heap),
            regions: Vec::new(heap),
            march: Vec::new(heap),
            sail: Vec::new(heap),
        }
    }

    fn add(&mut self, line: BoardLine<'a>) -> Result<(), AllocError>
        ensures { OnOk result (board_entries self.new ≡ with_entry (board_entries self.old) (entry_of line.entry)) }
    {
        match line {
            BoardLine::Region {
                name,
                kind,
                centre,
                home,
            } => {
                self.names.push(name)?;
                self.regions.extend_from_slice(&[kind, centre, home])
            }
            BoardLine::March { one, two } => self
                .march
                .extend_from_slice(&[word(one)?, word(two)?]),
            BoardLine::Sail { one, two } => self.sail.extend_from_slice(&[word(one)?, word(two)?]),
        }
    }
}

impl<'a> Reader<'a> for BoardFile<'a> {
    ghost Known = { BoardEntries };

    ghost known = { board_entries };

    ghost step = { λ board. board_step };

    fn read(&mut self, line: Line<'a>) -> Result<(), Fault> {
        let Some(words) = line.words()? else {
            return Ok(());
        };
        let entry = board_line(&self.names, words)?;
        self.add(entry)?;
        Ok(())
    }
}

pub fn read_board<'a>(heap: Global, text: &'a [u8]) -> Result<BoardFile<'a>, Fault>
    ensures { Answers board_entries (board_file text.now) result }
{
    read_whole(BoardFile::new(heap), text)
}

// A file of orders: texts, in blocks by phase.
ghost use Rattle.std.specs.Prelude.{◌≡◌, ℕ, ◌+◌, ◌<◌, ◌≤◌, Bool, true, false, cond, List, [], ◌∷◌, ◌++◌, length, IfOk, OnOk};
ghost use Rattle.text.specs.declared.orders_file.OrdersLine.{OrdersLine};
ghost use Rattle.text.specs.Refusal.{Reads, Answers};
ghost use Rattle.text.specs.Names.{names_of};
ghost use Rattle.text.specs.Reader.{left};
ghost use Rattle.text.specs.OrdersFile.{plain_form, aimed_form, pair_form, command_form, text_form, orders_form, orders_step, texts, opening, phases, blocks, block_of, blocks_in, orders_file};

use super::lines::Line;
use super::names::Names;
use super::reader::{Reader, read_whole};
use super::refusal::{Fault, Refusal};
use super::words::{Words, word};
use std::alloc::{AllocError, Global};

// What a text says behind its power and its region: a kind from 0 to 8, and two regions, 0 where there is none.
// Numbers and no enums, as they are the words of the call that is made of the file.
#[derive(Clone, Copy)]
pub(super) struct Command {
    kind: u32,
    one: usize,
    two: usize,
}

// One line as it is read, in numbers for the same reason.
#[derive(Clone, Copy)]
pub(super) enum OrdersLine {
    Phase(u32),
    Text {
        power: u32,
        region: usize,
        command: Command,
    },
}

// The texts of a phase, five words each. Without a phase line they are of the game's phase. The phase is a number, as the line has it.
#[derive(Drop)]
pub struct Block {
    pub phase: Option<u32>,
    pub words: Vec<u32>,
}

// This and the next two are three forms of the format, each with its definition.
fn plain(kind: u32, words: Words) -> Result<Command, Refusal>
    ensures { Reads (λ x. x) (plain_form kind (left words.entry)) words.entry.line result }
{
    words.end()?;
    Ok(Command {
        kind,
        one: 0,
        two: 0,
    })
}

// NAME
fn aimed(names: &Names, kind: u32, mut words: Words) -> Result<Command, Refusal>
    ensures { Reads (λ x. x) (aimed_form (names_of names.now) kind (left words.entry)) words.entry.line result }
{
    let one = words.name(names)?;
    words.end()?;
    Ok(Command { kind, one, two: 0 })
}

// NAME NAME
fn pair(names: &Names, kind: u32, mut words: Words) -> Result<Command, Refusal>
    ensures { Reads (λ x. x) (pair_form (names_of names.now) kind (left words.entry)) words.entry.line result }
{
    let one = words.name(names)?;
    let two = words.name(names)?;
    words.end()?;
    Ok(Command { kind, one, two })
}

// hold | move NAME | water NAME | holds NAME | helps NAME NAME | carries NAME NAME | army | fleet | gone
fn command_line(names: &Names, mut words: Words) -> Result<Command, Refusal>
    ensures { Reads (λ x. x) (command_form (names_of names.now) (left words.entry)) words.entry.line result }
{
    if words.skip(b"hold") {
        plain(0, words)
    } else if words.skip(b"move") {
        aimed(names, 1, words)
    } else if words.skip(b"water") {
        aimed(names, 2, words)
    } else if words.skip(b"holds") {
        aimed(names, 3, words)
    } else if words.skip(b"helps") {
        pair(names, 4, words)
    } else if words.skip(b"carries") {
        pair(names, 5, words)
    } else if words.skip(b"army") {
        plain(6, words)
    } else if words.skip(b"fleet") {
        plain(7, words)
    } else if words.skip(b"gone") {
        plain(8, words)
    } else {
        Err(words.unreadable())
    }
}

// P NAME and a command
fn text_line(names: &Names, mut words: Words) -> Result<OrdersLine, Refusal>
    ensures { Reads (λ x. x) (text_form (names_of names.now) (left words.entry)) words.entry.line result }
{
    let power = words.power()?;
    let region = words.name(names)?;
    let command = command_line(names, words)?;
    Ok(OrdersLine::Text {
        power,
        region,
        command,
    })
}

fn orders_line(names: &Names, mut words: Words) -> Result<OrdersLine, Refusal>
    ensures { Reads (λ x. x) (orders_form (names_of names.now) (left words.entry)) words.entry.line result }
{
    if words.skip(b"phase") {
        Ok(OrdersLine::Phase(words.phase_alone()?))
    } else {
        text_line(names, words)
    }
}

// The regions' names stand in the board's file.
#[derive(Drop)]
struct OrdersReader<'n, 'a> {
    names: &'n Names<'a>,
    lines: Vec<OrdersLine>,
}

impl<'l, 'n, 'a> Reader<'l> for OrdersReader<'n, 'a> {
    ghost Known = { List OrdersLine };

    ghost known = { λ reader. reader.lines.items };

    ghost step = { λ reader. orders_step (names_of reader.names.now) };

    fn read(&mut self, line: Line<'l>) -> Result<(), Fault> {
        let Some(words) = line.words()? else {
            return Ok(());
        };
        self.lines.push(orders_line(self.names, words)?)?;
        Ok(())
    }
}

// The texts before the next phase line. This and the three below make a list of lines, so each takes a heap and the lines.
fn texts(heap: Global, lines: &[OrdersLine]) -> Result<Vec<u32>, AllocError>
    ensures { IfOk result (λ words. words.items ≡ texts lines.now) }
{
    let mut words = Vec::new(heap);
    for line in lines {
        match *line {
            OrdersLine::Phase(_) => return Ok(words),
            OrdersLine::Text {
                power,
                region,
                command: Command { kind, one, two },
            } => {
                words.extend_from_slice(&[power, word(region)?, kind, word(one)?, word(two)?])?;
            }
        }
    }
    Ok(words)
}

// A block more: the texts that these lines begin with.
fn push_block(
    heap: Global,
    read: &mut Vec<Block>,
    phase: Option<u32>,
    lines: &[OrdersLine],
) -> Result<(), AllocError>
    ensures { OnOk result (blocks_in read.new ≡ blocks_in read.old ++ block_of phase (texts lines.now) ∷ []) }
{
    let words = texts(heap, lines)?;
    read.push(Block { phase, words })?;
    Ok(())
}

// Texts before any phase line, as a block.
#[tactic(auto, unfolding(crate::specs::OrdersFile::opening))]
fn opening(heap: Global, lines: &[OrdersLine]) -> Result<Vec<Block>, AllocError>
    ensures { IfOk result (λ read. blocks_in read ≡ opening lines.now) }
{
    let mut read = Vec::new(heap);
    match lines {
        [OrdersLine::Text { .. }, ..] => {
            push_block(heap, &mut read, None, lines)?;
            Ok(read)
        }
        [OrdersLine::Phase(_), ..] => Ok(read),
        [] => Ok(read),
    }
}

// By number, since what is behind a phase line is a part of the same list.
fn blocks(heap: Global, lines: &[OrdersLine]) -> Result<Vec<Block>, AllocError>
    ensures { IfOk result (λ read. blocks_in read ≡ blocks lines.now) }
{
    let mut read = opening(heap, lines)?;
    for (i, line) in lines.iter().enumerate() {
        if let OrdersLine::Phase(n) = *line {
            push_block(heap, &mut read, Some(n), &lines[i + 1..])?;
        }
    }
    Ok(read)
}

pub fn read_orders(heap: Global, names: &Names, text: &[u8]) -> Result<Vec<Block>, Fault>
    ensures { Answers blocks_in (orders_file (names_of names.now) text.now) result }
{
    let lines = Vec::new(heap);
    let reader = read_whole(OrdersReader { names, lines }, text)?;
    let read = blocks(heap, reader.lines.as_slice())?;
    Ok(read)
}

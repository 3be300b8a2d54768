// One phase played and printed, and phase after phase.
ghost use Rattle.std.specs.Prelude.{◌≡◌, ℕ, cond, List, ◌++◌, length, is_ok, IfOk, OnOk};
ghost use Rattle.game.specs.Winter.{units_after_winter};
ghost use Rattle.game.specs.Turn.{turn};
ghost use Rattle.position.specs.Position.{board_of, game_of};
ghost use Rattle.calls.specs.Verdict.{is_accepted};
ghost use Rattle.calls.specs.Turn.{turn_verdict, turn_game, texts_in};
ghost use Rattle.adjudicator.specs.Told.{told};
ghost use Rattle.text.specs.Refusal.{number};
ghost use Rattle.show.specs.Game.{game_bytes};
ghost use Rattle.show.specs.Reports.{retreat_lines, winter_lines, phase_lines};
ghost use Rattle.session.specs.Session.{refused_bytes, played_bytes, turn_bytes, run_bytes};
ghost use Rattle.session.specs.Tables.{place_names, lines_before, lines_after, turns_in};

use super::reasons::whole;
use super::start::{Gazetteer, Playing};
use adjudicator::advance::advance;
use adjudicator::barred::barred_regions;
use adjudicator::rest::winter;
use calls::{Fault, read_texts};
use deciding::Report;
use game::{Phase, Written};
use retreats::retreat_goals;
use show::{Printer, push_refusal};
use std::alloc::AllocError;
use text::Refusal;
use texts::Texts;

// What is told of moves, if there were any.
fn push_after(
    printer: &Printer<Gazetteer>,
    out: &mut Vec<u8>,
    texts: &[Written],
    reports: &Option<Vec<Report>>,
) -> Result<(), AllocError>
    ensures { OnOk result (out.new.items ≡ out.old.items ++ lines_after (place_names printer.now.names.now) printer.now.regions texts.now (told reports.now)) }
{
    match reports {
        None => Ok(()),
        Some(reports) => printer.push_moves(out, texts, reports.as_slice()),
    }
}

impl<'a> Playing<'a> {
    fn printer(&self) -> Printer<'_, Gazetteer<'a>>
        ensures names { result.names.now ≡ self.now.places }
        ensures regions { result.regions ≡ length (board_of self.now.position).regions }
    {
        Printer {
            names: &self.places,
            regions: self.position.atlas.regions.len() as u8,
        }
    }

    // The game as it stands.
    fn push_position(&self, out: &mut Vec<u8>) -> Result<(), AllocError>
        ensures { OnOk result (out.new.items ≡ out.old.items ++ game_bytes (place_names self.now.places) (length (board_of self.now.position).regions) (game_of self.now.position)) }
    {
        let p = &self.position;
        self.printer().push_game(
            out,
            p.phase,
            p.units.as_slice(),
            p.dislodged.as_slice(),
            p.barred,
            p.owners.as_slice(),
        )
    }

    // A refusal by its number, whichever that is, and the game as it stood.
    pub fn refuse_by(&self, out: &mut Vec<u8>, number: u8, line: u32) -> Result<(), AllocError>
        ensures { OnOk result (out.new.items ≡ out.old.items ++ refused_bytes (place_names self.now.places) (board_of self.now.position) (game_of self.now.position) number line) }
    {
        push_refusal(out, number, line)?;
        self.push_position(out)
    }

    // A refusal, and the game as it stood.
    pub fn refuse(&self, out: &mut Vec<u8>, refusal: Refusal) -> Result<(), AllocError>
        ensures { OnOk result (out.new.items ≡ out.old.items ++ refused_bytes (place_names self.now.places) (board_of self.now.position) (game_of self.now.position) (number refusal.reason) refusal.line) }
    {
        self.refuse_by(out, u8::from(refusal.reason), refusal.line)
    }

    // What becomes of those dislodged.
    fn push_retreating(&self, out: &mut Vec<u8>, texts: &Texts) -> Result<(), AllocError>
        ensures { OnOk result (out.new.items ≡ out.old.items ++ retreat_lines (place_names self.now.places) (board_of self.now.position) (game_of self.now.position) texts.now.list.items) }
    {
        let p = &self.position;
        let goals = retreat_goals(
            *out.allocator(),
            &p.atlas,
            texts,
            p.units.as_slice(),
            p.dislodged.as_slice(),
            barred_regions(p),
        )?;
        self.printer()
            .push_retreats(out, p.dislodged.as_slice(), goals.as_slice())
    }

    // Who comes and goes in winter.
    fn push_wintering(&self, out: &mut Vec<u8>, texts: &Texts) -> Result<(), AllocError>
        ensures { OnOk result (out.new.items ≡ out.old.items ++ winter_lines (place_names self.now.places) (length (board_of self.now.position).regions) (game_of self.now.position).units (units_after_winter (board_of self.now.position) (game_of self.now.position).owners texts.now.list.items (game_of self.now.position).units)) }
    {
        let after = winter(*out.allocator(), &self.position, texts)?;
        self.printer()
            .push_winter(out, self.position.units.as_slice(), after.as_slice())
    }

    // What is told of retreats and winters, while the position is still the one before.
    fn push_before(&self, out: &mut Vec<u8>, texts: &Texts) -> Result<(), AllocError>
        ensures { OnOk result (out.new.items ≡ out.old.items ++ lines_before self.now.position.phase (place_names self.now.places) (board_of self.now.position) (game_of self.now.position) texts.now.list.items) }
    {
        match self.position.phase {
            Phase::SpringMoves | Phase::AutumnMoves => Ok(()),
            Phase::SpringRetreats | Phase::AutumnRetreats => self.push_retreating(out, texts),
            Phase::Winter => self.push_wintering(out, texts),
        }
    }

    // A phase played, with the lines that tell of it.
    fn play_told(&mut self, out: &mut Vec<u8>, texts: &Texts) -> Result<(), AllocError>
        ensures places { self.new.places ≡ self.old.places }
        ensures board { board_of self.new.position ≡ board_of self.old.position }
        ensures game { OnOk result (game_of self.new.position ≡ turn (board_of self.old.position) (game_of self.old.position) texts.now.list.items) }
        ensures lines { OnOk result (out.new.items ≡ out.old.items ++ phase_lines (game_of self.old.position).phase (place_names self.old.places) (board_of self.old.position) (game_of self.old.position) texts.now.list.items) }
    {
        self.push_before(out, texts)?;
        let reports = advance(*out.allocator(), &mut self.position, texts)?;
        push_after(&self.printer(), out, texts.list.as_slice(), &reports)
    }

    // A phase played, and the next game; with the lines that tell of it, if the program prints them: data, as `run_bytes` has it.
    fn play_phase(
        &mut self,
        out: &mut Vec<u8>,
        tells: bool,
        texts: &Texts,
    ) -> Result<(), AllocError>
        ensures places { self.new.places ≡ self.old.places }
        ensures board { board_of self.new.position ≡ board_of self.old.position }
        ensures game { OnOk result (game_of self.new.position ≡ turn (board_of self.old.position) (game_of self.old.position) texts.now.list.items) }
        ensures bytes { OnOk result (out.new.items ≡ out.old.items ++ played_bytes tells (place_names self.old.places) (board_of self.old.position) (game_of self.old.position) texts.now.list.items) }
    {
        if tells {
            self.play_told(out, texts)?;
        } else {
            advance(*out.allocator(), &mut self.position, texts)?;
        }
        self.push_position(out)
    }

    // Whether a phase's words were accepted, which is all that playing on asks of the verdict, and what is printed; a refusal
    // changes nothing.
    fn play_words(
        &mut self,
        out: &mut Vec<u8>,
        tells: bool,
        words: &[u32],
    ) -> Result<bool, AllocError>
        ensures places { self.new.places ≡ self.old.places }
        ensures board { board_of self.new.position ≡ board_of self.old.position }
        ensures game { OnOk result (game_of self.new.position ≡ turn_game (board_of self.old.position) (game_of self.old.position) words.now) }
        ensures bytes { OnOk result (out.new.items ≡ out.old.items ++ turn_bytes tells (place_names self.old.places) (board_of self.old.position) (game_of self.old.position) words.now) }
        ensures accepted { IfOk result (λ b. b ≡ is_accepted (turn_verdict (board_of self.old.position) words.now)) }
    {
        let heap = *out.allocator();
        match read_texts(heap, self.position.atlas.regions.len() as u8, words) {
            Ok(list) => {
                let texts = Texts::new(heap, list)?;
                self.play_phase(out, tells, &texts)?;
                Ok(true)
            }
            Err(Fault::Refused(refused)) => {
                self.refuse(out, whole(refused))?;
                Ok(false)
            }
            Err(Fault::NoMemory) => Err(AllocError),
        }
    }

    // Phase after phase, up to the first that is refused.
    pub fn run(
        &mut self,
        out: &mut Vec<u8>,
        tells: bool,
        turns: &[&[u32]],
    ) -> Result<(), AllocError>
        ensures places { self.new.places ≡ self.old.places }
        ensures bytes { OnOk result (out.new.items ≡ out.old.items ++ run_bytes tells (place_names self.old.places) (board_of self.old.position) (game_of self.old.position) (turns_in turns.now)) }
    {
        for words in turns {
            if !self.play_words(out, tells, words)? {
                return Ok(());
            }
        }
        Ok(())
    }
}

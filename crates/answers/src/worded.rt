// Units, those dislodged and reports, each as words.
ghost use Rattle.std.specs.Prelude.{◌≡◌, ℕ, List, ◌++◌, OnOk};
ghost use Rattle.answers.specs.Words.{one_more, unit_words, out_words, order_words, report_words};

use board::{Order, Unit};
use deciding::Report;
use game::Dislodged;
use std::alloc::AllocError;
use tables::Standing;

pub trait Worded: Standing {
    ghost words_of: { Self → List ℕ };

    // Its words, behind those that stand.
    fn push_to(&self, out: &mut Vec<usize>) -> Result<(), AllocError>
        ensures { OnOk result (out.new.items ≡ out.old.items ++ words_of self.now) };
}

// 0 for none, else one more: the format's own step, and no `From`, since neither type is of this crate.
pub fn one_more(o: Option<u8>) -> usize
    ensures { result ≡ one_more o }
{
    o.map_or(0, |n| usize::from(n) + 1)
}

impl Worded for Unit {
    ghost words_of = { λ u. unit_words u };

    fn push_to(&self, out: &mut Vec<usize>) -> Result<(), AllocError> {
        out.extend_from_slice(&[
            usize::from(self.power),
            usize::from(self.region),
            usize::from(self.fleet),
        ])
    }
}

impl Worded for Dislodged {
    ghost words_of = { λ d. out_words d };

    fn push_to(&self, out: &mut Vec<usize>) -> Result<(), AllocError> {
        let unit = self.unit;
        out.extend_from_slice(&[
            usize::from(unit.power),
            usize::from(unit.region),
            usize::from(unit.fleet),
            one_more(self.from),
        ])
    }
}

// Kind, and two regions: in an answer a word is a number, and this format gives each kind its own.
fn push_order(out: &mut Vec<usize>, order: Order) -> Result<(), AllocError>
    ensures { OnOk result (out.new.items ≡ out.old.items ++ order_words order) }
{
    let (kind, a, b) = match order {
        Order::Hold => (0, 0, 0),
        Order::Move { to, convoyed } => (if convoyed { 2 } else { 1 }, to, 0),
        Order::SupportHold { at } => (3, at, 0),
        Order::SupportMove { from, to } => (4, from, to),
        Order::Convoy { from, to } => (5, from, to),
    };
    out.extend_from_slice(&[kind, usize::from(a), usize::from(b)])
}

impl Worded for Report {
    ghost words_of = { λ x. report_words x };

    fn push_to(&self, out: &mut Vec<usize>) -> Result<(), AllocError> {
        out.extend_from_slice(&[usize::from(self.unit.region)])?;
        push_order(out, self.order)?;
        out.extend_from_slice(&[
            usize::from(self.success),
            usize::from(self.dislodged),
            usize::from(self.ring),
            usize::from(self.stranded),
        ])?;
        Ok(())
    }
}

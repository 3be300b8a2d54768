// What is told of moves: a line for each unit with a text of its power, or dislodged.
ghost use Rattle.std.specs.Prelude.{◌≡◌, Bool, false, List, [], ◌++◌, length, if◌then◌else◌, None, vec_len, IfOk, OnOk, slice_index_or};
ghost use Rattle.show.specs.Reports.{yes_no, answer_to, answer, marks, report_line, move_lines};
ghost use Rattle.show.specs.Tables.{written_by, Marked, marked_line};

use super::printer::{Named, Printer};
use super::words::{push, push_letter, push_word};
use board::Order;
use deciding::Report;
use game::Written;
use std::alloc::{AllocError, Global};
use tables::by_region;

fn yes_no(success: bool) -> &'static [u8]
    ensures { result.now ≡ yes_no success }
{
    if success { b" yes" } else { b" no" }
}

fn answer_to(o: Order, success: bool) -> &'static [u8]
    ensures { result.now ≡ answer_to o success }
{
    match o {
        Order::Move { .. } | Order::SupportHold { .. } | Order::SupportMove { .. } => {
            yes_no(success)
        }
        Order::Hold | Order::Convoy { .. } => b"",
    }
}

fn answer(x: Report) -> &'static [u8]
    ensures { result.now ≡ answer x }
{
    if x.dislodged {
        b" thrown out"
    } else {
        answer_to(x.order, x.success)
    }
}

fn mark(on: bool, word: &[u8]) -> &[u8]
    ensures { result.now ≡ (if on then word.now else []) }
{
    if on { word } else { b"" }
}

fn push_marks(out: &mut Vec<u8>, x: Report) -> Result<(), AllocError>
    ensures { OnOk result (out.new.items ≡ out.old.items ++ marks x) }
{
    push(out, mark(x.ring, b" ring"))?;
    push(out, mark(x.stranded, b" kept"))
}

// Whether the unit in the text's region is of the power that wrote it.
fn is_own(table: &[Option<Report>], w: Written) -> bool
    requires { length table.now ≡ 256 }
    ensures { result ≡ written_by w.region (slice_index_or table.now w.region None) w }
{
    table[w.region as usize].is_some_and(|x| x.unit.power == w.power)
}

// One pass over the texts: the regions whose unit's own power wrote for it.
fn mark_own(
    heap: Global,
    table: &[Option<Report>],
    texts: &[Written],
) -> Result<Vec<bool>, AllocError>
    requires { length table.now ≡ 256 }
    ensures { IfOk result (λ v. (vec_len v ≡ 256) × Marked v.items table.now texts.now) }
{
    let mut marked = vec![in heap; false; 256]?;
    for w in texts {
        if is_own(table, *w) {
            marked[w.region as usize] = true;
        }
    }
    Ok(marked)
}

impl<'a, N: Named> Printer<'a, N> {
    fn push_report(&self, out: &mut Vec<u8>, x: Report) -> Result<(), AllocError>
        ensures { OnOk result (out.new.items ≡ out.old.items ++ report_line (N.named self.now.names.now) x) }
    {
        push_letter(out, x.unit.power)?;
        push_word(out, self.names.name(x.unit.region))?;
        self.push_order(out, x.order)?;
        push(out, answer(x))?;
        push_marks(out, x)?;
        push(out, b"\n")
    }

    fn push_marked(
        &self,
        out: &mut Vec<u8>,
        marked: bool,
        x: Option<Report>,
    ) -> Result<(), AllocError>
        ensures { OnOk result (out.new.items ≡ out.old.items ++ marked_line (N.named self.now.names.now) marked x) }
    {
        let Some(x) = x else {
            return Ok(());
        };
        if marked || x.dislodged {
            self.push_report(out, x)
        } else {
            Ok(())
        }
    }

    // The reports of a phase of moves for which `texts` were written: two lists, so two tables by region.
    pub fn push_moves(
        &self,
        out: &mut Vec<u8>,
        texts: &[Written],
        reports: &[Report],
    ) -> Result<(), AllocError>
        ensures { OnOk result (out.new.items ≡ out.old.items ++ move_lines (N.named self.now.names.now) self.now.regions texts.now reports.now) }
    {
        let heap = *out.allocator();
        let table = by_region(heap, reports)?;
        let table = table.as_slice();
        let marked = mark_own(heap, table, texts)?;
        let marked = marked.as_slice();
        self.push_each(
            out,
            |out, r| self.push_marked(out, marked[r as usize], table[r as usize]),
        )
    }
}

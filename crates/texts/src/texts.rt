// What players wrote, and for each power and region the one text that counts.
ghost use Rattle.std.specs.Prelude.{◌≡◌, ◌+◌, ◌*◌, ◌<◌, replicate, IfOk, vec_len};
ghost use Rattle.game.specs.Texts.{text_for, order_in};
ghost use Rattle.texts.specs.declared.texts.Slot.TheVariants.{Nothing};
ghost use Rattle.texts.specs.Slots.{Kept, note_in, text_in};

use board::Order;
use game::{Text, Written};
use std::alloc::{AllocError, Global};

// What one power wrote for one region: three states, since an `Option` would not tell none from too many.
#[derive(Clone, Copy)]
pub enum Slot {
    Nothing,
    Once(Text),
    Often,
}

impl Slot {
    fn with(self, text: Text) -> Slot
        ensures { result ≡ note_in text self }
    {
        match self {
            Slot::Nothing => Slot::Once(text),
            Slot::Once(_) | Slot::Often => Slot::Often,
        }
    }

    // The text that counts.
    fn text(self) -> Option<Text>
        ensures { result ≡ text_in self }
    {
        match self {
            Slot::Once(text) => Some(text),
            Slot::Nothing | Slot::Often => None,
        }
    }
}

// From the last text to the first; a power that isn't there has no slots.
fn note(slots: &mut Vec<Slot>, list: &[Written])
    requires blank { slots.old.items ≡ replicate 1792 Nothing }
    ensures long { vec_len slots.new ≡ 1792 }
    ensures kept { Kept list.now slots.new.items }
{
    for w in list.iter().rev() {
        if w.power < 7 {
            let k = w.power as usize * 256 + w.region as usize;
            slots[k] = slots[k].with(w.text);
        }
    }
}

// The texts as they came, and 256 slots for each power beside them: one table and no map, so that a look-up hashes nothing.
// A power that isn't there has no slots, so a look-up asks for one of the seven.
#[derive(Drop)]
pub struct Texts {
    pub list: Vec<Written>,
    slots: Vec<Slot>,
    ghost long: { vec_len slots ≡ 1792 },
    ghost kept: { Kept list.items slots.items },
}

impl Texts {
    pub fn new(heap: Global, list: Vec<Written>) -> Result<Texts, AllocError>
        ensures { IfOk result (λ t. t.list.items ≡ list.items) }
    {
        let mut slots = vec![in heap; Slot::Nothing; 1792]?;
        note(&mut slots, list.as_slice());
        Ok(Texts { list, slots })
    }

    // The one text of `power` for `region`.
    pub fn text_for(&self, power: u8, region: u8) -> Option<Text>
        requires { power < 7 }
        ensures { result ≡ text_for power region self.now.list.items }
    {
        self.slots[power as usize * 256 + region as usize].text()
    }
}

// A text that is no order, or none, is a hold.
pub fn order_in(text: Option<Text>) -> Order
    ensures { result ≡ order_in text }
{
    match text {
        Some(Text::Command(order)) => order,
        None | Some(Text::Build { .. } | Text::Disband) => Order::Hold,
    }
}

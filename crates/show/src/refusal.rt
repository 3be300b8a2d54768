// A refusal as a line.
ghost use Rattle.std.specs.Prelude.{◌≡◌, List, ◌++◌, OnOk};
ghost use Rattle.show.specs.Refusal.{refusal_bytes};

use super::words::push;
use std::alloc::AllocError;

// Its number as the files have it: the reasons themselves are those of crates that know of files and calls, which this one doesn't.
pub fn push_refusal(out: &mut Vec<u8>, number: u8, line: u32) -> Result<(), AllocError>
    ensures { OnOk result (out.new.items ≡ out.old.items ++ refusal_bytes number line) }
{
    let text = format!(in *out.allocator(); "refused {number} line {line}\n")?;
    push(out, text.as_bytes())
}

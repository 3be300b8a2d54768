// A call in one line.
ghost use Rattle.std.specs.Prelude.{◌≡◌, IfOk};
ghost use Rattle.lines.specs.Numbers.{words_in};
ghost use Rattle.lines.specs.Calls.{under, call_in, called_by};

use super::numbers::words_in;
use std::alloc::{AllocError, Global};

#[derive(Clone, Copy)]
pub enum Key {
    Begin,
    Turn,
}

#[derive(Drop)]
pub struct Call {
    pub key: Key,
    pub words: Vec<u32>,
}

fn called(heap: Global, key: Key, rest: &[u8]) -> Result<Option<Call>, AllocError>
    ensures { IfOk result (λ o. called_by o ≡ under key (words_in rest.now)) }
{
    Ok(words_in(heap, rest)?.map(|words| Call { key, words }))
}

// Nothing where the line is no call.
pub fn read_call(heap: Global, line: &[u8]) -> Result<Option<Call>, AllocError>
    ensures { IfOk result (λ o. called_by o ≡ call_in line.now) }
{
    if let Some(rest) = line.strip_prefix(b"begin") {
        return called(heap, Key::Begin, rest);
    }
    if let Some(rest) = line.strip_prefix(b"turn") {
        return called(heap, Key::Turn, rest);
    }
    Ok(None)
}

// Numbers in decimal, one space apart.
ghost use Rattle.std.specs.Prelude.{◌≡◌, ℕ, ◌-◌, ◌≤◌, IfOk, None};
ghost use Rattle.lines.specs.Numbers.{grow, step_in, numbers_from, words_in, items};

use std::alloc::{AllocError, Global};

// One digit more; a number that fits no word is the greatest word.
fn grown(n: u32, digit: u8) -> u32
    ensures { result ≡ grow n digit }
{
    n.saturating_mul(10).saturating_add(u32::from(digit))
}

// What a byte does to a number that may have begun: three ways on, so no `Option`.
#[derive(Clone, Copy)]
enum Step {
    Grows(u32),
    Ends(u32),
    Bad,
}

fn step_by(number: Option<u32>, b: u8) -> Step
    ensures { result ≡ step_in number b }
{
    match number {
        None if b.is_ascii_digit() => Step::Grows(u32::from(b - b'0')),
        Some(n) if b.is_ascii_digit() => Step::Grows(grown(n, b - b'0')),
        Some(n) if b == b' ' => Step::Ends(n),
        _ => Step::Bad,
    }
}

// At least one number.
fn numbers(heap: Global, bytes: &[u8]) -> Result<Option<Vec<u32>>, AllocError>
    ensures { IfOk result (λ o. items o ≡ numbers_from None bytes.now) }
{
    let mut out = Vec::new(heap);
    let mut number = None;
    for b in bytes {
        match step_by(number, *b) {
            Step::Grows(n) => number = Some(n),
            Step::Ends(n) => {
                out.push(n)?;
                number = None;
            }
            Step::Bad => return Ok(None),
        }
    }
    let Some(n) = number else {
        return Ok(None);
    };
    out.push(n)?;
    Ok(Some(out))
}

// What stands behind a key: nothing, or a space and numbers.
pub fn words_in(heap: Global, bytes: &[u8]) -> Result<Option<Vec<u32>>, AllocError>
    ensures { IfOk result (λ o. items o ≡ words_in bytes.now) }
{
    match bytes {
        [] => Ok(Some(Vec::new(heap))),
        [b' ', rest @ ..] => numbers(heap, rest),
        _ => Ok(None),
    }
}

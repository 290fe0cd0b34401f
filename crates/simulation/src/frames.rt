// Test frames: one line of binary digits each, a digit for each input.
ghost use Rattle.std.specs.Prelude.{◌≡◌, ℕ, List, MatchOption};
ghost use Rattle.std.specs.List.{list_all};
ghost use Rattle.simulation.specs.Frames.{binary, Ends, FirstFrame, FramesRead};

use crate::error::SimulateError;
use std::alloc::Global;

fn are_digits(bytes: &[u8]) -> bool
    ensures { result ≡ list_all binary bytes.now }
{
    bytes.iter().all(|b| *b == b'0' || *b == b'1')
}

// What follows the end of a line; the last line may lack it.
fn after_end(bytes: &[u8]) -> Option<&[u8]>
    ensures { MatchOption result ((rest : List ℕ) → Ends bytes.now rest → ⊥) (λ x. Ends bytes.now x.now) }
{
    match bytes {
        [] => Some(bytes),
        [b'\n', rest @ ..] => Some(rest),
        _ => None,
    }
}

// The frame on the first line, and what follows the line.
fn first_frame(bytes: &[u8], inputs: usize) -> Option<(&[u8], &[u8])>
    ensures { FirstFrame inputs bytes.now result }
{
    let (frame, after) = bytes.split_at_checked(inputs)?;
    let rest = after_end(after)?;
    if are_digits(frame) {
        Some((frame, rest))
    } else {
        None
    }
}

// The frames of a file, as the bytes of their digits, or the first line that is no frame's.
pub fn read_frames(heap: Global, bytes: &[u8], inputs: usize) -> Result<Vec<&[u8]>, SimulateError>
    ensures answer { FramesRead inputs bytes.now result }
{
    let mut frames = Vec::new(heap);
    let mut rest = bytes;
    while !rest.is_empty() {
        let Some((frame, after)) = first_frame(rest, inputs) else {
            return Err(SimulateError::Frame(frames.len() + 1));
        };
        frames.push(frame)?;
        rest = after;
    }
    Ok(frames)
}

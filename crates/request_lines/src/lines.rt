// A text as a list of lines.
ghost use Rattle.std.specs.Prelude.{◌≡◌, ◌==◌, map, IfOk};
ghost use Rattle.std.specs.List.{slice_split};
ghost use Rattle.request_lines.specs.Split.{lines_of, numbered};

use std::alloc::{AllocError, Global};

// What stands between the lines' ends.
fn between<'a>(heap: Global, text: &'a [u8]) -> Result<Vec<&'a [u8]>, AllocError>
    ensures { IfOk result (λ v. map (λ x. x.now) v.items ≡ slice_split (λ b. b == 10) text.now) }
{
    text.split(|byte| *byte == b'\n').collect(heap)
}

// The lines without their ends; the last one may lack its end.
fn split_lines<'a>(heap: Global, text: &'a [u8]) -> Result<Vec<&'a [u8]>, AllocError>
    ensures { IfOk result (λ v. map (λ x. x.now) v.items ≡ lines_of text.now) }
{
    let Some((last, before)) = text.split_last() else {
        return Ok(Vec::new(heap));
    };
    if *last == b'\n' {
        between(heap, before)
    } else {
        between(heap, text)
    }
}

// The lines, as above, with their numbers, the first being 1.
pub fn numbered_lines<'a>(
    heap: Global,
    text: &'a [u8],
) -> Result<Vec<(usize, &'a [u8])>, AllocError>
    ensures answer { IfOk result (λ v. map (λ x. (x.0, x.1.now)) v.items ≡ numbered 1 (lines_of text.now)) }
{
    let lines = split_lines(heap, text)?;
    let whole = lines.as_slice();
    let mut found = Vec::new(heap);
    for (i, line) in whole.iter().enumerate() {
        found.push((i + 1, *line))?;
    }
    Ok(found)
}

// The numbers of a line, each after one space.
ghost use Rattle.std.specs.Prelude.{◌≡◌, ℕ, ◌<◌, ◌≤◌, List, length, MatchOption, IfOk, ◌≢◌, slice_index};
ghost use Rattle.std.specs.List.{AllByRecursion};
ghost use Rattle.request_lines.specs.Lines.{Short, numbers_text};
ghost use Rattle.request_lines.specs.Parts.{Spaced, Cut};

use super::number::number;
use std::alloc::{AllocError, Global};

// Where the first space stands, or the end.
fn first_space(bytes: &[u8]) -> usize
    ensures within { result ≤ length bytes.now }
    ensures before { (k : ℕ) → k < result → slice_index bytes.now k ≢ 32 }
    ensures found { result < length bytes.now → slice_index bytes.now result ≡ 32 }
{
    bytes.iter().position(|b| *b == b' ').unwrap_or(bytes.len())
}

// The bytes before the first space, and those from it on.
pub(crate) fn cut(bytes: &[u8]) -> (&[u8], &[u8])
    ensures { Cut bytes.now result.0.now result.1.now }
{
    bytes.split_at(first_space(bytes))
}

// The numbers that these bytes are the text of.
pub(crate) fn numbers(heap: Global, bytes: &[u8]) -> Result<Option<Vec<u32>>, AllocError>
    requires { Spaced bytes.now }
    ensures answer { IfOk result (λ o. MatchOption o ((ns : List ℕ) → AllByRecursion Short ns → bytes.now ≢ numbers_text ns) (λ v. AllByRecursion Short v.items × (bytes.now ≡ numbers_text v.items))) }
{
    let mut found = Vec::new(heap);
    let mut left = bytes;
    while let [_space, rest @ ..] = left {
        let (first, more) = cut(rest);
        let Some(n) = number(first) else {
            return Ok(None);
        };
        found.push(n)?;
        left = more;
    }
    Ok(Some(found))
}

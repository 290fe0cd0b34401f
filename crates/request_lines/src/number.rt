// Numbers in decimal, without sign and leading zeros.
ghost use Rattle.std.specs.Prelude.{◌≡◌, ℕ, ◌<◌, ◌^◌, decimal, MatchOption, ◌≢◌};

use itoa::Buffer;
use std::str;

// The number of which these bytes are the text.
pub fn number(bytes: &[u8]) -> Option<u32>
    ensures answer { MatchOption result ((n : ℕ) → n < 2 ^ 32 → bytes.now ≢ decimal n) (λ n. bytes.now ≡ decimal n) }
{
    let text = str::from_utf8(bytes).ok()?;
    let n = text.parse::<u32>().ok()?;
    // `parse` takes a sign and leading zeros too.
    if Buffer::new().format(n) == text {
        Some(n)
    } else {
        None
    }
}

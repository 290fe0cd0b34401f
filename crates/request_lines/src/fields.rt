// What follows the word of a line.
ghost use Rattle.std.specs.Prelude.{◌≡◌, ℕ, List, Bool, [], ◌∷◌, map, MatchOption, IfOk, ◌≢◌, string_bytes};
ghost use Rattle.std.specs.Str.{IsUtf8};
ghost use Rattle.rules.specs.declared.edge.Edge.{Edge as an_edge};
ghost use Rattle.rules.specs.Edges.{edge};
ghost use Rattle.rulesets.specs.declared.levels.OptLevel.{OptLevel as a_level};
ghost use Rattle.request_lines.specs.Lines.{bit_digit, bits_text, level_number};
ghost use Rattle.request_lines.specs.Parts.{Spaced};

use rules::edge::Edge;
use rulesets::levels::OptLevel;
use std::alloc::{AllocError, Global};
use std::str;

pub(crate) fn one_edge(numbers: &[u32]) -> Option<Edge>
    ensures { MatchOption result ((e : an_edge) → numbers.now ≢ e.0 ∷ []) (λ e. numbers.now ≡ e.0 ∷ []) }
{
    match numbers {
        [e] => Some(Edge(*e)),
        _ => None,
    }
}

pub(crate) fn two_edges(numbers: &[u32]) -> Option<(Edge, Edge)>
    ensures { MatchOption result ((x y : an_edge) → numbers.now ≢ x.0 ∷ y.0 ∷ []) (λ p. numbers.now ≡ p.0.0 ∷ p.1.0 ∷ []) }
{
    match numbers {
        [x, y] => Some((Edge(*x), Edge(*y))),
        _ => None,
    }
}

pub(crate) fn edges(heap: Global, numbers: &[u32]) -> Result<Vec<Edge>, AllocError>
    ensures { IfOk result (λ v. v.items ≡ map edge numbers.now) }
{
    numbers.iter().map(|n| Edge(*n)).collect(heap)
}

pub(crate) fn level(number: u32) -> Option<OptLevel>
    ensures { MatchOption result ((l : a_level) → number ≢ level_number l) (λ l. number ≡ level_number l) }
{
    match number {
        1 => Some(OptLevel::One),
        2 => Some(OptLevel::Two),
        3 => Some(OptLevel::Three),
        4 => Some(OptLevel::Four),
        _ => None,
    }
}

fn bit(digit: u8) -> Option<bool>
    ensures { MatchOption result ((b : Bool) → digit ≢ bit_digit b) (λ b. digit ≡ bit_digit b) }
{
    match digit {
        b'0' => Some(false),
        b'1' => Some(true),
        _ => None,
    }
}

// The bits that these digits are.
fn digits(heap: Global, digits: &[u8]) -> Result<Option<Vec<bool>>, AllocError>
    ensures { IfOk result (λ o. MatchOption o ((bs : List Bool) → digits.now ≢ map bit_digit bs) (λ v. digits.now ≡ map bit_digit v.items)) }
{
    let mut bits = Vec::new(heap);
    for digit in digits {
        let Some(bit) = bit(*digit) else {
            return Ok(None);
        };
        bits.push(bit)?;
    }
    Ok(Some(bits))
}

pub(crate) fn bits(heap: Global, parts: &[u8]) -> Result<Option<Vec<bool>>, AllocError>
    requires { Spaced parts.now }
    ensures { IfOk result (λ o. MatchOption o ((bs : List Bool) → parts.now ≢ bits_text bs) (λ v. parts.now ≡ bits_text v.items)) }
{
    match parts {
        [] => Ok(Some(Vec::new(heap))),
        [_space] => Ok(None),
        [_space, rest @ ..] => digits(heap, rest),
    }
}

pub(crate) fn path(heap: Global, parts: &[u8]) -> Result<Option<String>, AllocError>
    requires { Spaced parts.now }
    ensures { IfOk result (λ o. MatchOption o ((path : List ℕ) → path ≢ [] → IsUtf8 path → parts.now ≢ 32 ∷ path) (λ s. (string_bytes s ≢ []) × IsUtf8 (string_bytes s) × (parts.now ≡ 32 ∷ string_bytes s))) }
{
    let [_space, path @ ..] = parts else {
        return Ok(None);
    };
    if path.is_empty() {
        return Ok(None);
    }
    let Ok(text) = str::from_utf8(path) else {
        return Ok(None);
    };
    Ok(Some(String::from_str(heap, text)?))
}

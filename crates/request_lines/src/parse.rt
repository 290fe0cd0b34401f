// A line, read.
ghost use Rattle.std.specs.Prelude.{◌≡◌, [], ◌∷◌, MatchOption, IfOk};
ghost use Rattle.std.specs.List.{AllByRecursion};
ghost use Rattle.request_lines.specs.declared.word.Word.TheVariants.{Graph, Read, Evaluate, Table, Pairs};
ghost use Rattle.request_lines.specs.Lines.{Short, asked, word_of};
ghost use Rattle.request_lines.specs.Parts.{Spaced};
ghost use Rattle.request_lines.specs.Parses.{Two, Numbered, numbers_of, NumbersParsed, PartsParsed, Parsed};

use super::fields::{bits, edges, level, one_edge, path, two_edges};
use super::line::{Ask, Line, Opening};
use super::numbers::{cut, numbers};
use super::word::Word;
use graph_model::operation::Operation;
use rules::edge::Edge;
use std::alloc::{AllocError, Global};

fn opening(numbers: &[u32]) -> Option<Line>
    requires { AllByRecursion Short numbers.now }
    ensures { NumbersParsed Graph numbers.now result }
{
    let [inputs, number, records] = numbers else {
        return None;
    };
    let level = level(*number)?;
    Some(Line::Graph(Opening {
        inputs: *inputs,
        level,
        records: *records,
    }))
}

fn table(numbers: &[u32]) -> Option<Line>
    requires { AllByRecursion Short numbers.now }
    ensures { NumbersParsed Table numbers.now result }
{
    let edge = one_edge(numbers)?;
    Some(Line::Ask(Ask::Table(edge)))
}

// What is asked of two edges.
fn of_two(word: Word, x: Edge, y: Edge) -> Option<Ask>
    ensures { MatchOption result (Two word → ⊥) (λ a. (word_of (asked a) ≡ word) × (numbers_of (asked a) ≡ x.0 ∷ y.0 ∷ [])) }
{
    match word {
        Word::And => Some(Ask::And(x, y)),
        Word::Or => Some(Ask::Apply(Operation::Or, x, y)),
        Word::Implies => Some(Ask::Apply(Operation::Implies, x, y)),
        Word::Equiv => Some(Ask::Apply(Operation::Equiv, x, y)),
        Word::Xor => Some(Ask::Apply(Operation::Xor, x, y)),
        Word::Compare => Some(Ask::Compare(x, y)),
        _ => None,
    }
}

fn two(word: Word, numbers: &[u32]) -> Option<Line>
    requires short { AllByRecursion Short numbers.now }
    requires two { Two word }
    ensures { NumbersParsed word numbers.now result }
{
    let (x, y) = two_edges(numbers)?;
    let ask = of_two(word, x, y)?;
    Some(Line::Ask(ask))
}

// A line of numbers.
fn by_numbers(heap: Global, word: Word, numbers: &[u32]) -> Result<Option<Line>, AllocError>
    requires short { AllByRecursion Short numbers.now }
    requires numbered { Numbered word }
    ensures { IfOk result (NumbersParsed word numbers.now) }
{
    match word {
        Word::Graph => Ok(opening(numbers)),
        Word::Table => Ok(table(numbers)),
        Word::Write => Ok(Some(Line::Ask(Ask::Write(edges(heap, numbers)?)))),
        _ => Ok(two(word, numbers)),
    }
}

fn numbered(heap: Global, word: Word, parts: &[u8]) -> Result<Option<Line>, AllocError>
    requires spaced { Spaced parts.now }
    requires numbered { Numbered word }
    ensures { IfOk result (PartsParsed word parts.now) }
{
    let Some(numbers) = numbers(heap, parts)? else {
        return Ok(None);
    };
    by_numbers(heap, word, numbers.as_slice())
}

fn read(heap: Global, parts: &[u8]) -> Result<Option<Line>, AllocError>
    requires { Spaced parts.now }
    ensures { IfOk result (PartsParsed Read parts.now) }
{
    let Some(path) = path(heap, parts)? else {
        return Ok(None);
    };
    Ok(Some(Line::Read(path)))
}

fn evaluate(heap: Global, parts: &[u8]) -> Result<Option<Line>, AllocError>
    requires { Spaced parts.now }
    ensures { IfOk result (PartsParsed Evaluate parts.now) }
{
    let Some(bits) = bits(heap, parts)? else {
        return Ok(None);
    };
    Ok(Some(Line::Ask(Ask::Evaluate(bits))))
}

fn pairs(parts: &[u8]) -> Option<Line>
    ensures { PartsParsed Pairs parts.now result }
{
    if parts.is_empty() {
        Some(Line::Ask(Ask::Pairs))
    } else {
        None
    }
}

// The line with this word, and these bytes after it.
fn after_word(heap: Global, word: Word, parts: &[u8]) -> Result<Option<Line>, AllocError>
    requires { Spaced parts.now }
    ensures { IfOk result (PartsParsed word parts.now) }
{
    match word {
        Word::Read => read(heap, parts),
        Word::Evaluate => evaluate(heap, parts),
        Word::Pairs => Ok(pairs(parts)),
        _ => numbered(heap, word, parts),
    }
}

// The line that has these bytes, without its end; none where no line has them.
pub fn parse(heap: Global, bytes: &[u8]) -> Result<Option<Line>, AllocError>
    ensures answer { IfOk result (Parsed bytes.now) }
{
    let (first, parts) = cut(bytes);
    let Some(word) = Word::of(first) else {
        return Ok(None);
    };
    after_word(heap, word, parts)
}

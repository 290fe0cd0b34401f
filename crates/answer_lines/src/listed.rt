// Answers that list edges, values or pairs.
ghost use Rattle.std.specs.Prelude.{◌≡◌, ◌∷◌, ◌++◌, decimal, IfOk, OnOk};
ghost use Rattle.history_model.specs.Histories.{listed};
ghost use Rattle.request_lines.specs.Lines.{bit_digit, edges_text};
ghost use Rattle.answer_lines.specs.Answers.{read_text, bits_of, values_text, pair_text, spaced_pairs, pairs_text};

use history_model::request::NodeValues;
use itoa::Buffer;
use rules::edge::Edge;
use rules::pair::Pair;
use std::alloc::{AllocError, Global};
use values::value::Value;

fn push_number(line: &mut Vec<u8>, n: u32) -> Result<(), AllocError>
    ensures { OnOk result (line.new.items ≡ line.old.items ++ decimal n) }
{
    line.extend_from_slice(Buffer::new().format(n).as_bytes())
}

// A space before each.
fn push_edges(line: &mut Vec<u8>, edges: &[Edge]) -> Result<(), AllocError>
    ensures { OnOk result (line.new.items ≡ line.old.items ++ edges_text edges.now) }
{
    for edge in edges {
        line.push(b' ')?;
        push_number(line, edge.0)?;
    }
    Ok(())
}

pub(crate) fn read_line(heap: Global, added: u32, outputs: &[Edge]) -> Result<Vec<u8>, AllocError>
    ensures { IfOk result (λ v. v.items ≡ read_text added outputs.now) }
{
    let mut line = format!(in heap; "added {added} outputs")?.into_bytes();
    push_edges(&mut line, outputs)?;
    line.push(b'\n')?;
    Ok(line)
}

fn digit(bit: bool) -> u8
    ensures { result ≡ bit_digit bit }
{
    if bit { b'1' } else { b'0' }
}

// Only bits are asked for.
pub(crate) fn bits<W: Value>(values: &NodeValues<W>) -> &[bool]
    ensures { result.now ≡ bits_of (listed values.now) }
{
    match values {
        NodeValues::Bits(bits) => bits.as_slice(),
        _ => &[],
    }
}

// The values of so many nodes.
pub(crate) fn values_line(heap: Global, nodes: usize, bits: &[bool]) -> Result<Vec<u8>, AllocError>
    ensures { IfOk result (λ v. v.items ≡ values_text nodes bits.now) }
{
    let mut line = Vec::from_slice(heap, b"values ")?;
    for bit in &bits[..nodes.min(bits.len())] {
        line.push(digit(*bit))?;
    }
    line.push(b'\n')?;
    Ok(line)
}

fn push_pair(line: &mut Vec<u8>, pair: Pair) -> Result<(), AllocError>
    ensures { OnOk result (line.new.items ≡ line.old.items ++ pair_text pair) }
{
    push_number(line, pair.larger.0)?;
    line.push(b',')?;
    push_number(line, pair.smaller.0)
}

// A space before each.
fn push_pairs(line: &mut Vec<u8>, pairs: &[Pair]) -> Result<(), AllocError>
    ensures { OnOk result (line.new.items ≡ line.old.items ++ spaced_pairs pairs.now) }
{
    for pair in pairs {
        line.push(b' ')?;
        push_pair(line, *pair)?;
    }
    Ok(())
}

pub(crate) fn pairs_line(heap: Global, pairs: &[Pair]) -> Result<Vec<u8>, AllocError>
    ensures { IfOk result (λ v. v.items ≡ pairs_text pairs.now) }
{
    let mut line = Vec::new(heap);
    if let [first, rest @ ..] = pairs {
        push_pair(&mut line, *first)?;
        push_pairs(&mut line, rest)?;
    }
    line.push(b'\n')?;
    Ok(line)
}

// A truth table in hexadecimal digits.
ghost use Rattle.std.specs.Prelude.{◌≡◌, ◌<◌, ◌≤◌, ◌++◌, codes, IfOk};
ghost use Rattle.std.specs.Char.{digit_char};
ghost use Rattle.values.specs.Rows.{block_rows, double, table_rows};
ghost use Rattle.answer_lines.specs.Answers.{bit_number, four_rows, table_digits};

use std::alloc::{AllocError, Global};
use values::block::Block;
use values::cofactors::{Cofactors, Table};

fn half_row(half: Cofactors<Block>, k: u32) -> bool
    ensures { result ≡ (double block_rows).row k half }
{
    if k < 64 {
        half.low.bit(k)
    } else {
        half.high.bit(k - 64)
    }
}

fn row(table: Table, k: u32) -> bool
    ensures { result ≡ table_rows.row k table }
{
    if k < 128 {
        half_row(table.low, k)
    } else {
        half_row(table.high, k - 128)
    }
}

fn bit(table: Table, k: u32) -> u8
    ensures few { result ≤ 1 }
    ensures number { result ≡ bit_number (table_rows.row k table) }
{
    u8::from(row(table, k))
}

fn hex_digit(n: u8) -> u8
    requires { n < 16 }
    ensures { result ≡ digit_char n }
{
    if n < 10 { b'0' + n } else { b'a' + (n - 10) }
}

fn digit(table: Table, k: u32) -> u8
    requires { k < 64 }
    ensures { result ≡ digit_char (four_rows table k) }
{
    let low = bit(table, 4 * k) + 2 * bit(table, 4 * k + 1);
    let high = bit(table, 4 * k + 2) + 2 * bit(table, 4 * k + 3);
    hex_digit(low + 4 * high)
}

// Row 255 first.
fn digits(heap: Global, table: Table) -> Result<Vec<u8>, AllocError>
    ensures { IfOk result (λ v. v.items ≡ table_digits table) }
{
    (0..64).map(|j| digit(table, 63 - j)).collect(heap)
}

pub(crate) fn table_line(heap: Global, table: Table) -> Result<Vec<u8>, AllocError>
    ensures { IfOk result (λ v. v.items ≡ table_digits table ++ codes "\n") }
{
    let mut line = digits(heap, table)?;
    line.push(b'\n')?;
    Ok(line)
}

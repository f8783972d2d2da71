// The parts of a line.
ghost use Rattle.std.specs.Prelude.{◌≡◌, ◌++◌, IfOk, OnOk};
ghost use Rattle.std.specs.String.{string_bytes};
ghost use Rattle.layout.specs.Text.{digit};
ghost use Rattle.tool_text.specs.Parts.{dash, number_or_dash, truth_or_dash, hex_or_dash, behind_commas, joined};

use std::alloc::{AllocError, Global};

pub fn dash(alloc: Global) -> Result<String, AllocError>
    ensures { IfOk result (λ text. string_bytes text ≡ dash) }
{
    format!(in alloc; "-")
}

/// A truth value as a number.
pub fn digit(value: bool) -> u8
    ensures { result ≡ digit value }
{
    if value { 1 } else { 0 }
}

pub fn number_or_dash(alloc: Global, number: Option<u32>) -> Result<String, AllocError>
    ensures { IfOk result (λ text. string_bytes text ≡ number_or_dash number) }
{
    match number {
        Some(number) => format!(in alloc; "{number}"),
        None => dash(alloc),
    }
}

pub fn truth_or_dash(alloc: Global, value: Option<bool>) -> Result<String, AllocError>
    ensures { IfOk result (λ text. string_bytes text ≡ truth_or_dash value) }
{
    match value {
        Some(value) => {
            let value = digit(value);
            format!(in alloc; "{value}")
        }
        None => dash(alloc),
    }
}

pub fn hex_or_dash(alloc: Global, bytes: &[u8]) -> Result<String, AllocError>
    ensures { IfOk result (λ text. string_bytes text ≡ hex_or_dash bytes.now) }
{
    if bytes.is_empty() {
        return dash(alloc);
    }
    hex::encode(alloc, bytes)
}

/// Adds the numbers, each behind a comma.
fn push_behind_commas(alloc: Global, numbers: &[u8], text: &mut String) -> Result<(), AllocError>
    ensures { OnOk result (string_bytes text.new ≡ string_bytes text.old ++ behind_commas numbers.now) }
{
    for number in numbers {
        let number = *number;
        let part = format!(in alloc; ",{number}")?;
        text.push_str(&part)?;
    }
    Ok(())
}

pub fn joined(alloc: Global, numbers: &[u8]) -> Result<String, AllocError>
    ensures { IfOk result (λ text. string_bytes text ≡ joined numbers.now) }
{
    match numbers {
        [first, more @ ..] => {
            let first = *first;
            let mut text = format!(in alloc; "{first}")?;
            push_behind_commas(alloc, more, &mut text)?;
            Ok(text)
        }
        [] => Ok(String::new(alloc)),
    }
}

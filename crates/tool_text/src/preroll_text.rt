// The lines of the preroll of an immediate play-out frame.
ghost use Rattle.std.specs.Prelude.{◌≡◌, ◌++◌, IfOk, OnOk};
ghost use Rattle.tool_text.specs.PreRollText.{bad_line, preroll_line, unit_line, units_from, lines_of_preroll};

use crate::parts::{digit, hex_or_dash};
use bit_core::{Items, Octets};
use preroll::PreRoll;
use std::alloc::{AllocError, Global};

/// The line of a payload that is no AudioPreRoll, with its line feed: the first bit of the field that lacks bits, counted from
/// the first bit of the payload.
///
/// Errors: out of memory.
///
/// ```text
/// preroll bad bit=88
/// ```
pub fn bad_preroll_line(alloc: Global, bit: u64) -> Result<Octets, AllocError>
    ensures { IfOk result (λ line. line ≡ bad_line bit) }
{
    let text = format!(in alloc; "preroll bad bit={bit}\n")?;
    Ok(Octets::from_vec(text.into_bytes()))
}

fn preroll_line(alloc: Global, preroll: &PreRoll) -> Result<Octets, AllocError>
    ensures { IfOk result (λ line. line ≡ preroll_line preroll.now) }
{
    let config = preroll.config.len();
    let fade = digit(preroll.fade);
    let reserved = digit(preroll.reserved);
    let units = preroll.units.len();
    let tail = preroll.tail.len();
    let text = format!(in alloc;
        "preroll config={config} fade={fade} reserved={reserved} units={units} tail={tail}\n"
    )?;
    Ok(Octets::from_vec(text.into_bytes()))
}

fn unit_line(alloc: Global, k: usize, unit: &[u8]) -> Result<Octets, AllocError>
    ensures { IfOk result (λ line. line ≡ unit_line k unit.now) }
{
    let bytes = hex_or_dash(alloc, unit)?;
    let text = format!(in alloc; "unit {k} {bytes}\n")?;
    Ok(Octets::from_vec(text.into_bytes()))
}

fn push_units(alloc: Global, units: &[Octets], lines: &mut Items<Octets>) -> Result<(), AllocError>
    ensures { OnOk result (lines.new ≡ lines.old ++ units_from 0 units.now) }
{
    for k in 0..units.len() {
        let line = unit_line(alloc, k, units[k].as_slice())?;
        lines.push(line)?;
    }
    Ok(())
}

/// The lines of a preroll, each with its line feed: how many bytes its configuration has, applyCrossfade, the reserved bit, how
/// many access units it carries, and how many bits stand behind them; and then each access unit with its number in hex.
///
/// Errors: out of memory.
///
/// ```text
/// preroll config=8 fade=0 reserved=0 units=1 tail=0
/// unit 0 81
/// ```
pub fn preroll_lines(alloc: Global, preroll: &PreRoll) -> Result<Items<Octets>, AllocError>
    ensures { IfOk result (λ lines. lines ≡ lines_of_preroll preroll.now) }
{
    let mut lines = Items::new(alloc);
    let first = preroll_line(alloc, preroll)?;
    lines.push(first)?;
    push_units(alloc, preroll.units.as_slice(), &mut lines)?;
    Ok(lines)
}

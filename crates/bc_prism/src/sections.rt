//! Sections, as slices of the text.
ghost use Rattle.std.specs.Prelude.{◌≡◌, ◌≤◌, ◌^◌, ◌++◌, ◌∷◌, [], length, map, IfOk, OnOk, OnErr};
ghost use Rattle.bc_prism.specs.declared.fault.LayerFault.TheVariants as faults;
ghost use Rattle.bc_prism.specs.Sections.{section, part, Reads};
ghost use Rattle.bc_prism.specs.Reading.{EndsIn, closed, layers_so_far, TakesRow, ReadsLines};

use crate::overlaps::find_overlap;
use crate::row::{Kind, Row, next_row};
use crate::{LayerFault, Section};
use bc_lex::Lines;
use bc_num::{List, Memory};
use std::alloc::Global;

/// The sections of a text of at most 2^20 bytes. A section begins with a line whose first word is `LAYER`, with two whole
/// numbers from -1023 to 1023 behind it, the lower first; its text goes on to the next such line or the end, and is a slice of
/// the text.
///
/// # Errors
/// The first line that is at fault, else the first section that overlaps an earlier one, or `Memory` where there is none left.
pub fn read_layers<'a>(alloc: Global, text: &'a [u8]) -> Result<List<Section<'a>>, LayerFault>
    requires { length text.now ≤ 2 ^ 20 }
    ensures read { Reads result text.now }
    ensures few { IfOk result (λ ss. length ss ≤ 64) }
{
    let sections = read_lines(alloc, text)?;
    match find_overlap(&sections) {
        Some(fault) => Err(fault),
        None => Ok(sections),
    }
}

/// A section whose text has begun.
#[derive(Clone, Copy)]
pub struct Open {
    pub z0: i64,
    pub z1: i64,
    pub from: usize,
}

// The sections, where no line is at fault.
fn read_lines<'a>(alloc: Global, text: &'a [u8]) -> Result<List<Section<'a>>, LayerFault>
    requires { length text.now ≤ 2 ^ 20 }
    ensures read { ReadsLines result text.now }
    ensures few { IfOk result (λ ss. length ss ≤ 64) }
{
    let mut lines = Lines::new(text);
    let mut made = List::new(alloc);
    let mut begun = None;
    let mut at = 0;
    while let Some(row) = next_row(&mut lines, at) {
        begun = take_row(&mut made, text, begun, row)?;
        at = row.behind;
    }
    close(&mut made, text, begun, text.len()).map_err(|_| LayerFault::Memory)?;
    Ok(made)
}

// Takes a row; `Ok` has the section that is begun behind it.
fn take_row<'a>(
    made: &mut List<Section<'a>>,
    text: &'a [u8],
    begun: Option<Open>,
    row: Row,
) -> Result<Option<Open>, LayerFault>
    requires ends { EndsIn begun row.from text.now }
    ensures takes { TakesRow result (layers_so_far made.old begun) made.old made.new begun text.now row }
    ensures few { IfOk result (λ o. layers_so_far made.old begun ≤ 64 → layers_so_far made.new o ≤ 64) }
{
    match row.kind {
        Kind::Empty => Ok(begun),
        Kind::Other if begun.is_some() || made.len() > 0 => Ok(begun),
        Kind::Other | Kind::Bad => Err(LayerFault::BadLayer { line: row.number }),
        Kind::Layer(z0, z1) => {
            close(made, text, begun, row.from).map_err(|_| LayerFault::Memory)?;
            if made.len() >= 64 {
                return Err(LayerFault::TooManyLayers { line: row.number });
            }
            Ok(Some(Open {
                z0,
                z1,
                from: row.behind,
            }))
        }
    }
}

// Adds the section that is begun, which ends there.
fn close<'a>(
    made: &mut List<Section<'a>>,
    text: &'a [u8],
    begun: Option<Open>,
    to: usize,
) -> Result<(), Memory>
    requires { EndsIn begun to text.now }
    ensures ok { OnOk result (map section made.new ≡ map section made.old ++ closed begun text.now to) }
    ensures err { OnErr result (made.new ≡ made.old) }
{
    if let Some(Open { z0, z1, from }) = begun {
        made.push(Section {
            z0,
            z1,
            text: &text[from..to],
        })?;
    }
    Ok(())
}

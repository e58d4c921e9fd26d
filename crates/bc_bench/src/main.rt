//! The cells of pseudorandom half-spaces, to time the arrangement engine. The words DIMENSION COUNT SEED REPEATS ask for
//! lines (2) or planes (3), how many of them (at most 40), where their numbers begin, and how often the cells are found.
//! It prints how many cells there are, how many corners they have in all, and a hash of their masks in order.
#![tactic(auto)]

ghost use Rattle.std.specs.Prelude.{◌≤◌};

mod half_spaces;

use bc_cells::{Cell, cells};
use bc_num::{Box2, Box3, List, Memory};
use bc_space::{Flat, Solid3, Space};
use half_spaces::{lines, planes};
use std::alloc::Global;
use std::env;
use std::process::ExitCode;

#[derive(Drop)]
struct Summary {
    pub cells: usize,
    pub corners: u64,
    pub hash: u64,
}

fn tally<S: Space>(cells: &List<Cell<S>>) -> Summary {
    let mut corners: u64 = 0;
    let mut hash: u64 = 7;
    for c in cells.as_slice() {
        corners = corners.wrapping_add(c.corners.len() as u64);
        hash = hash.wrapping_mul(1000003).wrapping_add(c.mask);
    }
    Summary {
        cells: cells.len(),
        corners,
        hash,
    }
}

fn in_plane(alloc: Global, count: usize, seed: u64) -> Result<Summary, Memory>
    requires { count ≤ 40 }
{
    let halves = lines(alloc, count, seed)?;
    let bounds = Box2 {
        x0: -4096,
        y0: -4096,
        x1: 4096,
        y1: 4096,
    };
    let found = cells::<Flat>(alloc, &bounds, halves.as_slice())?;
    Ok(tally::<Flat>(&found))
}

fn in_space(alloc: Global, count: usize, seed: u64) -> Result<Summary, Memory>
    requires { count ≤ 40 }
{
    let halves = planes(alloc, count, seed)?;
    let bounds = Box3 {
        x0: -4096,
        y0: -4096,
        z0: -4096,
        x1: 4096,
        y1: 4096,
        z1: 4096,
    };
    let found = cells::<Solid3>(alloc, &bounds, halves.as_slice())?;
    Ok(tally::<Solid3>(&found))
}

fn found_in(alloc: Global, dimension: u64, count: usize, seed: u64) -> Result<Summary, Memory>
    requires { count ≤ 40 }
{
    if dimension == 2 {
        in_plane(alloc, count, seed)
    } else {
        in_space(alloc, count, seed)
    }
}

// The first four words as numbers; 0 for one that is missing or no number.
fn numbers(rt: &HostRuntime) -> [u64; 4] {
    let mut numbers = [0; 4];
    let Ok(args) = env::args(rt) else {
        return numbers;
    };
    let mut i = 0;
    for word in args.skip(1) {
        if i < 4 {
            numbers[i] = word.parse::<u64>().unwrap_or(0);
            i += 1;
        }
    }
    numbers
}

fn main(rt: HostRuntime) -> ExitCode {
    let [dimension, count, seed, repeats] = numbers(&rt);
    let count = count.min(40) as usize;
    for _ in 0..repeats {
        let Ok(found) = found_in(rt.alloc(), dimension, count, seed) else {
            return ExitCode::from(1);
        };
        let _ = println!(rt;
            "{} cells, {} corners, hash {}",
            found.cells, found.corners, found.hash
        );
    }
    ExitCode::from(0)
}

//! Factored trees of terms over four strips, each written in letters: what is shared, what is chosen among equals, and
//! groups in groups.
ghost use Rattle.std.specs.Prelude.{◌<◌, ◌^◌, All, IsTrue};

use bc_cover::{Blocks, Term};
use bc_factor::*;
use bc_num::{Box2, List, V2};
use bc_tree::{Frame2, Leaf, Tree};
use std::alloc::{AllocError, Global};
use std::test::Fail;

fn strip(y: i64) -> Result<Leaf, &'static str> {
    let frame = Frame2::new(V2 { x: 0, y }, V2 { x: 1, y: 0 }).ok_or("no strip")?;
    Ok(Leaf::Strip(frame))
}

fn terms_of(alloc: Global, masks: &[(u64, u64)]) -> Result<List<Term>, &'static str> {
    let mut terms = List::new(alloc);
    for (pos, neg) in masks {
        let term = Term {
            pos: *pos,
            neg: *neg,
            own: 0,
            blocks: Blocks::new(alloc),
        };
        terms.push(term).map_err(|_| "memory")?;
    }
    Ok(terms)
}

// Whether all literals are over the first four half-spaces.
fn are_small(terms: &[Term]) -> bool
    ensures { IsTrue result → All (λ t. (t.pos < 2 ^ 4) × (t.neg < 2 ^ 4)) terms.now }
{
    terms.iter().all(|t| t.pos < 16 && t.neg < 16)
}

// The factored tree of terms over four strips.
fn factored(alloc: Global, masks: &[(u64, u64)]) -> Result<Tree, &'static str> {
    let tile = Leaf::Tile(Box2 {
        x0: -1,
        y0: -1,
        x1: 1,
        y1: 4,
    });
    let strips = [strip(0)?, strip(1)?, strip(2)?, strip(3)?];
    let terms = terms_of(alloc, masks)?;
    if !are_small(terms.as_slice()) {
        return Err("a fifth half-space");
    }
    factor(alloc, tile, &strips, &terms).map_err(|_| "memory")
}

// A tree in letters: u[..] a union, m[..] a meet, d[..] a cut, T the tile, and each strip by its height.
#[cycle(letters)]
fn spell(t: &Tree, out: &mut String) -> Result<(), AllocError> {
    match t {
        Tree::Leaf(leaf) => out.push_str(letter(leaf)),
        Tree::Union(kids) => {
            out.push_str("u[")?;
            spell_all(kids.as_slice(), out)
        }
        Tree::Meet(kids) => {
            out.push_str("m[")?;
            spell_all(kids.as_slice(), out)
        }
        Tree::Cut(first, kids) => {
            out.push_str("d[")?;
            spell(first.get(), out)?;
            spell_all(kids.as_slice(), out)
        }
    }
}

#[cycle(letters)]
fn spell_all(kids: &[Tree], out: &mut String) -> Result<(), AllocError> {
    for kid in kids {
        spell(kid, out)?;
    }
    out.push_str("]")
}

fn letter(leaf: &Leaf) -> &'static str {
    match leaf {
        Leaf::Strip(f) => match f.o.y {
            0 => "0",
            1 => "1",
            2 => "2",
            _ => "3",
        },
        _ => "T",
    }
}

#[test]
fn factored_trees(rt: HostRuntime) -> Result<(), Fail> {
    let alloc = rt.alloc();
    let rows: [(&[(u64, u64)], &str); 8] = [
        // no term, one term, two that share nothing
        (&[], "u[]"),
        (&[(5, 2)], "u[d[m[T02]1]]"),
        (&[(1, 2), (2, 1)], "u[d[m[T0]1]d[m[T1]0]]"),
        // a strip that both have, and two more of which one is taken away
        (&[(3, 0), (5, 0)], "u[d[m[0u[d[m[T1]]d[m[T2]]]]]]"),
        (&[(5, 8), (3, 8)], "u[d[m[0u[d[m[T2]]d[m[T1]]]]3]]"),
        // of equal ones the least half-space, and of one half-space the positive literal
        (
            &[(5, 0), (9, 0), (6, 0)],
            "u[d[m[0u[d[m[T2]]d[m[T3]]]]]d[m[T12]]]",
        ),
        (
            &[(2, 1), (4, 1), (3, 0), (5, 0)],
            "u[d[m[0u[d[m[T1]]d[m[T2]]]]]d[m[u[d[m[T1]]d[m[T2]]]]0]]",
        ),
        // a group in a group, and behind it the term of which nothing is left
        (
            &[(1, 0), (3, 0), (7, 0)],
            "u[d[m[0u[d[m[1u[d[m[T]]d[m[T2]]]]]d[m[T]]]]]]",
        ),
    ];
    for (masks, want) in rows {
        let mut letters = String::new(alloc);
        spell(&factored(alloc, masks)?, &mut letters).map_err(|_| "memory")?;
        assert_eq!(rt; letters.as_str(), want);
    }
    Ok(())
}

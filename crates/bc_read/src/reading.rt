//! The state of the reader between two tokens, and what a token does to it. The state has the open operators, the
//! numbers of the leaf so far and what may stand next. The parts are in `part`, the leaves in `leaf`, and the loop
//! over all tokens is in `read`.
ghost use Rattle.std.specs.Prelude.{◌≡◌, [], reverse, Ok, IfOk};
ghost use Rattle.bc_lex.specs.Tokens.{atoken};
ghost use Rattle.bc_read.specs.declared.fault.CsgFault.TheVariants.{BadShape};
ghost use Rattle.bc_read.specs.Table.{begins, chosen};
ghost use Rattle.bc_read.specs.Numbers.{value_of as value};
ghost use Rattle.bc_read.specs.Leaves.{leaf_of as the_leaf};
ghost use Rattle.bc_read.specs.Machine.{state, add, tree_of_kids, close as closes, entered, at_node, mixes as mixing, with_leaf, ended_part, passed, at_number, at_shape, at_want, step, Steps};

use crate::fault::CsgFault;
use crate::leaf::{is_solid_leaf, leaf_of};
use crate::number::{is_numeral, value_of};
use crate::part::{Form, Op, Part, form_of, is_word, part_of, pattern};
use bc_lex::Token;
use bc_num::Memory;
use bc_tree::Tree;
use sqlite_items::{Boxed, Items};
use std::alloc::Global;

/// The place of a token: its line and its number, both counted from 1.
#[derive(Clone, Copy, Debug, PartialEq, Eq)]
pub struct Place {
    pub line: u32,
    pub token: u32,
}

/// A part that is being read: what is left of its pattern, and the place of its node's first token.
#[derive(Clone, Copy, Debug)]
pub struct Within {
    pub part: Part,
    pub wants: &'static [u8],
    pub first: Place,
}

/// What may stand next: a node, or the end of the innermost operator; what is left of a part; nothing.
#[derive(Drop)]
pub enum Now {
    Node,
    Inside(Within),
    Whole(Tree),
}

/// An operator whose end has not come, and its children so far.
#[derive(Drop)]
pub struct Open {
    pub op: Op,
    pub kids: Items<Tree>,
}

/// A tree that is being read: the operators that are open, the innermost last; whether the leaves so far are of space; the
/// numbers so far of the leaf that is read; and what may stand next.
#[derive(Drop)]
pub struct Reading {
    pub stack: Items<Open>,
    pub seen: Option<bool>,
    pub numbers: Vec<i64>,
    pub now: Now,
}

// The token is none that may stand here.
fn bad_shape(token: &Token<'_>) -> CsgFault
    ensures { result ≡ BadShape token.now.line token.now.nth }
{
    CsgFault::BadShape {
        line: token.line,
        token: token.nth,
    }
}

// Adds a whole tree.
fn add_tree(reading: &mut Reading, tree: Tree) -> Result<(), CsgFault>
    ensures { Steps result (state reading.new) (Ok (add tree (reverse reading.old.stack) reading.old.seen)) }
{
    match reading.stack.pop() {
        None => reading.now = Now::Whole(tree),
        Some(mut top) => {
            top.kids.push(tree).map_err(|_| CsgFault::Memory)?;
            reading.stack.push(top).map_err(|_| CsgFault::Memory)?;
            reading.now = Now::Node;
        }
    }
    Ok(())
}

// The tree of an operator; `None` where it lacks a child.
fn operator(alloc: Global, op: Op, kids: Items<Tree>) -> Result<Option<Tree>, Memory>
    ensures { IfOk result (λ t. t ≡ tree_of_kids op kids) }
{
    match op {
        Op::Union => Ok(Some(Tree::Union(kids))),
        Op::Meet => {
            if kids.is_empty() {
                Ok(None)
            } else {
                Ok(Some(Tree::Meet(kids)))
            }
        }
        Op::Cut => {
            let mut kids = kids;
            if kids.is_empty() {
                return Ok(None);
            }
            let first = kids.remove(0);
            let first = Boxed::new(alloc, first)?;
            Ok(Some(Tree::Cut(first, kids)))
        }
    }
}

// Ends the innermost operator.
fn close(alloc: Global, reading: &mut Reading, token: &Token<'_>) -> Result<(), CsgFault>
    ensures { Steps result (state reading.new) (closes (reverse reading.old.stack) reading.old.seen (atoken token.now)) }
{
    let Some(Open { op, kids }) = reading.stack.pop() else {
        return Err(bad_shape(token));
    };
    match operator(alloc, op, kids).map_err(|_| CsgFault::Memory)? {
        Some(tree) => add_tree(reading, tree),
        None => Err(bad_shape(token)),
    }
}

fn enter(reading: &mut Reading, part: Part, token: &Token<'_>)
    ensures { state reading.new ≡ entered part (reverse reading.old.stack) reading.old.seen (atoken token.now) }
{
    reading.numbers.clear();
    reading.now = Now::Inside(Within {
        part,
        wants: pattern(part),
        first: Place {
            line: token.line,
            token: token.nth,
        },
    });
}

fn take_node(alloc: Global, reading: &mut Reading, token: &Token<'_>) -> Result<(), CsgFault>
    ensures { Steps result (state reading.new) (at_node (begins token.now.text.now) (reverse reading.old.stack) reading.old.seen (atoken token.now)) }
{
    match part_of(token.text) {
        None => {
            if token.text == b"}".as_slice() {
                return close(alloc, reading, token);
            }
            return Err(bad_shape(token));
        }
        Some(Part::Opening(op)) => {
            if reading.stack.len() >= 64 {
                return Err(CsgFault::TooDeep {
                    line: token.line,
                    token: token.nth,
                });
            }
            enter(reading, Part::Opening(op), token);
        }
        Some(part) => enter(reading, part, token),
    }
    Ok(())
}

fn mixes(seen: Option<bool>, solid: bool) -> bool
    ensures { result ≡ mixing seen solid }
{
    match seen {
        None => false,
        Some(before) => before != solid,
    }
}

fn end_leaf(reading: &mut Reading, form: Form, first: Place) -> Result<(), CsgFault>
    ensures { Steps result (state reading.new) (with_leaf (the_leaf form reading.old.numbers.items) first (reverse reading.old.stack) reading.old.seen) }
{
    let Some(leaf) = leaf_of(form, &reading.numbers) else {
        return Err(CsgFault::BadFrame {
            line: first.line,
            token: first.token,
        });
    };
    let solid = is_solid_leaf(&leaf);
    if mixes(reading.seen, solid) {
        return Err(CsgFault::Mixed {
            line: first.line,
            token: first.token,
        });
    }
    reading.seen = Some(solid);
    add_tree(reading, Tree::Leaf(leaf))
}

// The pattern of a part is used up.
fn end_part(alloc: Global, reading: &mut Reading, within: Within) -> Result<(), CsgFault>
    requires { within.wants.now ≡ [] }
    ensures { Steps result (state reading.new) (ended_part within.part reading.old.numbers.items within.first (reverse reading.old.stack) reading.old.seen) }
{
    match within.part {
        Part::Opening(op) => {
            let open = Open {
                op,
                kids: Items::new(alloc),
            };
            reading.stack.push(open).map_err(|_| CsgFault::Memory)?;
            reading.now = Now::Node;
            Ok(())
        }
        Part::Closing(form) => end_leaf(reading, form, within.first),
        Part::Moved | Part::Placed => {
            reading.now = Now::Inside(within);
            Ok(())
        }
    }
}

// A token of a part came.
fn pass(alloc: Global, reading: &mut Reading, within: Within) -> Result<(), CsgFault>
    ensures { Steps result (state reading.new) (passed within.part within.wants.now reading.old.numbers.items within.first (reverse reading.old.stack) reading.old.seen) }
{
    if within.wants.is_empty() {
        return end_part(alloc, reading, within);
    }
    reading.now = Now::Inside(within);
    Ok(())
}

fn take_number(
    alloc: Global,
    reading: &mut Reading,
    within: Within,
    token: &Token<'_>,
) -> Result<(), CsgFault>
    ensures { Steps result (state reading.new) (at_number (value token.now.text.now) within.part within.wants.now reading.old.numbers.items within.first (reverse reading.old.stack) reading.old.seen (atoken token.now)) }
{
    let Some(number) = value_of(token.text) else {
        return Err(CsgFault::BadNumber {
            line: token.line,
            token: token.nth,
        });
    };
    reading.numbers.push(number).map_err(|_| CsgFault::Memory)?;
    pass(alloc, reading, within)
}

fn take_shape(reading: &mut Reading, within: Within, token: &Token<'_>) -> Result<(), CsgFault>
    ensures { Steps result (state reading.new) (at_shape (chosen within.part token.now.text.now) reading.old.numbers.items within.first (reverse reading.old.stack) reading.old.seen (atoken token.now)) }
{
    let Some(form) = form_of(within.part, token.text) else {
        return Err(bad_shape(token));
    };
    let part = Part::Closing(form);
    reading.now = Now::Inside(Within {
        part,
        wants: pattern(part),
        first: within.first,
    });
    Ok(())
}

fn take_inside(
    alloc: Global,
    reading: &mut Reading,
    within: Within,
    token: &Token<'_>,
) -> Result<(), CsgFault>
    ensures { Steps result (state reading.new) (at_want within.part within.wants.now reading.old.numbers.items within.first (reverse reading.old.stack) reading.old.seen (atoken token.now)) }
{
    let [want, rest @ ..] = within.wants else {
        return take_shape(reading, within, token);
    };
    let behind = Within {
        part: within.part,
        wants: rest,
        first: within.first,
    };
    if *want == b'#' {
        if is_numeral(token.text) {
            return take_number(alloc, reading, behind, token);
        }
    } else if is_word(token.text, *want) {
        return pass(alloc, reading, behind);
    }
    Err(bad_shape(token))
}

/// One token more.
pub fn take(alloc: Global, reading: &mut Reading, token: &Token<'_>) -> Result<(), CsgFault>
    ensures { Steps result (state reading.new) (step (state reading.old) (atoken token.now)) }
{
    match &reading.now {
        Now::Node => take_node(alloc, reading, token),
        Now::Inside(within) => {
            let within = *within;
            take_inside(alloc, reading, within, token)
        }
        Now::Whole(_) => Err(CsgFault::Extra {
            line: token.line,
            token: token.nth,
        }),
    }
}

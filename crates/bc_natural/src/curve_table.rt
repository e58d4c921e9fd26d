//! The table of the half-spaces of contours: distinct lines with their origins, and distinct discs, asked for by number
//! or as lists. `gather_curves` fills it, and `specs/Curves` says what it holds.
ghost use Rattle.std.specs.Prelude.{◌≡◌, ◌<◌, [], length, slice_get, Some, IfOk, OnOk, map};
ghost use Rattle.std.specs.List.{list_any};
ghost use Rattle.bc_natural.specs.Curves.{lines_of, is_same_line, is_same_disc};
ghost use Rattle.bc_natural.specs.Noted.{with_new};

use bc_num::{Disc2, List, Memory, V2};
use bc_space::Line2;
use indexmap::{IndexMap, IndexSet};
use std::alloc::Global;
use std::marker::Model;

/// Distinct lines with their origins, and distinct discs, in the order in which they were seen first.
#[derive(Drop)]
pub struct CurveTable {
    lines: IndexMap<Line2, V2>,
    discs: IndexSet<Disc2>,
}

impl Model for CurveTable {
    ghost use Rattle.bc_natural.specs.Curves.{Curves};

    ghost Value = { Curves };

    ghost view = { λ t. record { lines = t.lines.entries; discs = t.discs.keys } };
}

impl CurveTable {
    // A table of nothing, which takes no memory.
    pub(crate) fn new(alloc: Global) -> CurveTable
        ensures lines { result.lines ≡ [] }
        ensures discs { result.discs ≡ [] }
    {
        CurveTable {
            lines: IndexMap::new(alloc),
            discs: IndexSet::new(alloc),
        }
    }

    // Whether the line is there.
    fn has_line(&self, line: Line2) -> bool
        ensures { result ≡ list_any (λ e. is_same_line line e.0) self.now.lines }
    {
        self.lines.contains_key(&line)
    }

    // Puts a line with its origin at the end, unless the line is there.
    pub(crate) fn add_line(&mut self, line: Line2, origin: V2) -> Result<(), Memory>
        ensures lines { OnOk result (self.new.lines ≡ with_new (λ g h. is_same_line g.0 h.0) self.old.lines (line, origin)) }
        ensures discs { OnOk result (self.new.discs ≡ self.old.discs) }
    {
        if !self.has_line(line) {
            self.lines.insert(line, origin)?;
        }
        Ok(())
    }

    // Puts a disc at the end, unless it is there.
    pub(crate) fn add_disc(&mut self, disc: Disc2) -> Result<(), Memory>
        ensures lines { OnOk result (self.new.lines ≡ self.old.lines) }
        ensures discs { OnOk result (self.new.discs ≡ with_new is_same_disc self.old.discs disc) }
    {
        self.discs.insert(disc)?;
        Ok(())
    }

    /// How many lines there are.
    pub fn lines(&self) -> usize
        ensures { result ≡ length self.now.lines }
    {
        self.lines.len()
    }

    /// The line with this number, counted from 0, and its origin.
    pub fn entry(&self, i: usize) -> (Line2, V2)
        requires { i < length self.now.lines }
        ensures { slice_get self.now.lines i ≡ Some result }
    {
        let (line, origin) = self.lines.get_index(i).unwrap();
        (*line, *origin)
    }

    /// The line with this number, counted from 0, which is below `lines`.
    pub fn line(&self, i: usize) -> Line2
        requires { i < length self.now.lines }
        ensures { slice_get (lines_of self.now) i ≡ Some result }
    {
        let (line, _) = self.entry(i);
        line
    }

    /// The origin of the line with this number: the start of the first element that has the line. It is on the line.
    pub fn origin(&self, i: usize) -> V2
        requires { i < length self.now.lines }
        ensures { slice_get (map (λ e. e.1) self.now.lines) i ≡ Some result }
    {
        let (_, origin) = self.entry(i);
        origin
    }

    /// How many discs there are.
    pub fn discs(&self) -> usize
        ensures { result ≡ length self.now.discs }
    {
        self.discs.len()
    }

    /// The disc with this number, counted from 0, which is below `discs`.
    pub fn disc(&self, i: usize) -> Disc2
        requires { i < length self.now.discs }
        ensures { slice_get self.now.discs i ≡ Some result }
    {
        *self.discs.get_index(i).unwrap()
    }

    /// The lines in order. `Memory` where there is no room for them; the cost grows with their number.
    pub fn line_list(&self, alloc: Global) -> Result<List<Line2>, Memory>
        ensures { IfOk result (λ ls. ls ≡ lines_of self.now) }
    {
        let mut list = List::new(alloc);
        for i in 0..self.lines() {
            list.push(self.line(i))?;
        }
        Ok(list)
    }

    /// The discs in order. `Memory` where there is no room for them; the cost grows with their number.
    pub fn disc_list(&self, alloc: Global) -> Result<List<Disc2>, Memory>
        ensures { IfOk result (λ ds. ds ≡ self.now.discs) }
    {
        let mut list = List::new(alloc);
        for i in 0..self.discs() {
            list.push(self.disc(i))?;
        }
        Ok(list)
    }
}

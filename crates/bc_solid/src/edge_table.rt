//! How often each pair of ends occurs among the edges of faces, whichever way they lead, and the first pair with an
//! odd number. The edges come from `edge`.
ghost use Rattle.std.specs.Prelude.{◌≡◌, ◌≢◌, ◌≤◌, ◌<◌, ◌^◌, ◌%◌, [], length, map, Some, slice_get, All, IfOk, IfSome, IsNone, OnOk};
ghost use Rattle.std.specs.Map.{keys_of};
ghost use Rattle.bc_solid.specs.EdgeTables.{edge_of, count_of, CountsOnce, IsEdgeTable, IsFirstOdd};

use crate::edge::Edge;
use bc_num::{List, Memory};
use indexmap::IndexMap;
use std::alloc::Global;
use std::marker::Model;

// How often each pair of ends occurs, in the order in which the pairs were seen first. A key has its lesser end first.
#[derive(Drop)]
pub(crate) struct EdgeTable {
    counts: IndexMap<Edge, u32>,
}

impl Model for EdgeTable {
    ghost use Rattle.std.specs.Prelude.{List, ℕ};
    ghost use Rattle.bc_solid.specs.declared.edge.Edge.{Edge};

    ghost Value = { List (Edge × ℕ) };

    ghost view = { λ t. t.counts.entries };
}

impl EdgeTable {
    // A table of nothing, which takes no memory.
    fn new(alloc: Global) -> EdgeTable
        ensures { result ≡ [] }
    {
        EdgeTable {
            counts: IndexMap::new(alloc),
        }
    }

    // The number of a key, 0 where it is not there.
    fn count(&self, key: Edge) -> u32
        ensures { result ≡ count_of key self.now }
    {
        match self.counts.get(&key) {
            Some(count) => *count,
            None => 0,
        }
    }

    // Counts a key once more.
    fn add(&mut self, key: Edge) -> Result<(), Memory>
        requires { count_of key self.old < 2 ^ 20 }
        ensures { OnOk result (CountsOnce key self.old self.new) }
    {
        let count = self.count(key);
        self.counts.insert(key, count + 1)?;
        Ok(())
    }

    // The table of edges whose ends differ.
    pub(crate) fn of_edges(alloc: Global, edges: &[Edge]) -> Result<EdgeTable, Memory>
        requires apart { All (λ e. e.from ≢ e.to) edges.now }
        requires few { length edges.now ≤ 2 ^ 20 }
        ensures { IfOk result (IsEdgeTable (map edge_of edges.now)) }
    {
        let mut table = EdgeTable::new(alloc);
        for edge in edges {
            table.add(edge.sorted())?;
        }
        Ok(table)
    }

    // How many keys there are.
    fn len(&self) -> usize
        ensures { result ≡ length (keys_of self.now) }
    {
        self.counts.len()
    }

    // The key with this number, counted from 0, and its count.
    fn entry(&self, i: usize) -> (Edge, u32)
        requires { i < length (keys_of self.now) }
        ensures key { slice_get (keys_of self.now) i ≡ Some result.0 }
        ensures count { count_of result.0 self.now ≡ result.1 }
    {
        let (key, count) = self.counts.get_index(i).unwrap();
        (*key, *count)
    }

    // The first key with an odd number, and that number.
    pub(crate) fn first_odd(&self) -> Option<(Edge, u32)>
        ensures none { IsNone result → All (λ k. count_of k self.now % 2 ≡ 0) (keys_of self.now) }
        ensures odd { IfSome result (IsFirstOdd self.now) }
    {
        for i in 0..self.len() {
            let (key, count) = self.entry(i);
            if count % 2 == 1 {
                return Some((key, count));
            }
        }
        None
    }
}

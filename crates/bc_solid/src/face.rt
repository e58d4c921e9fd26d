//! A face of a mesh as the numbers of its places. Up to eight corners are kept without an allocation; the coordinates
//! of the corners are told in `outline`.
ghost use Rattle.std.specs.Prelude.{◌≡◌, ◌<◌, [], ◌∷◌, ◌++◌, length, Some, slice_get, OnOk, OnErr};

use bc_num::Memory;
use smallvec::SmallVec;
use std::alloc::Global;
use std::marker::Model;

/// The corners of a face of a mesh, as numbers of places, in order round the face. It keeps up to eight of them without an
/// allocation; contracts see the list.
#[derive(Debug, Drop)]
pub struct Face {
    items: SmallVec<u32, 8>,
}

impl Model for Face {
    ghost use Rattle.std.specs.Prelude.{List, ℕ};

    ghost Value = { List ℕ };

    ghost view = { λ f. f.items.items };
}

impl Face {
    /// A face without corners. The allocator is kept for `push`.
    pub fn new(alloc: Global) -> Face
        ensures { result ≡ [] }
    {
        Face {
            items: SmallVec::new(alloc),
        }
    }

    /// How many corners there are.
    pub fn len(&self) -> usize
        ensures { result ≡ length self.now }
    {
        self.items.len()
    }

    /// The place that is corner `i`, counted from 0.
    pub fn get(&self, i: usize) -> u32
        requires { i < length self.now }
        ensures { slice_get self.now i ≡ Some result }
    {
        self.items.as_slice()[i]
    }

    /// All corners, in order.
    pub fn as_slice(&self) -> &[u32]
        ensures { result.now ≡ self.now }
    {
        self.items.as_slice()
    }

    /// Puts a corner behind the others. After `Memory` the face is unchanged.
    pub fn push(&mut self, corner: u32) -> Result<(), Memory>
        ensures ok { OnOk result (self.new ≡ self.old ++ corner ∷ []) }
        ensures err { OnErr result (self.new ≡ self.old) }
    {
        self.items.push(corner)?;
        Ok(())
    }
}

ghost use Rattle.std.specs.Prelude.{◌≡◌, ◌<◌, ◌↔◌, false, Some, [], length, replicate, slice_get, slice_set, IfOk, IsTrue};

use std::alloc::{AllocError, Global};
use std::marker::Model;

/// A list of truth values, numbered from 0, as the table of a LUT: bit j is its value at index j.
#[derive(Debug, Drop)]
pub struct Bits {
    inner: Vec<bool>,
}

impl Model for Bits {
    ghost use Rattle.std.specs.Prelude.{◌<◌, ◌^◌, List, Bool, length};

    ghost Value = { List Bool };

    ghost view = { λ b. b.inner.items };

    ghost invariant = { λ b. length b.inner.items < 2 ^ 32 };
}

impl Bits {
    /// So many bits, all of them off.
    pub fn zeros(alloc: Global, len: u32) -> Result<Bits, AllocError>
        ensures { IfOk result (λ bits. bits ≡ replicate len false) }
    {
        Ok(Bits {
            inner: Vec::from_elem(alloc, false, len as usize)?,
        })
    }

    /// Whether bit `i` is on.
    pub fn get(&self, i: u32) -> bool
        requires { i < length self.now }
        ensures { slice_get self.now i ≡ Some result }
    {
        self.inner[i as usize]
    }

    /// Turns bit `i` on or off.
    pub fn put(&mut self, i: u32, on: bool)
        requires { i < length self.old }
        ensures { self.new ≡ slice_set self.old i on }
    {
        self.inner[i as usize] = on;
    }

    /// How many bits there are.
    pub fn len(&self) -> u32
        ensures { result ≡ length self.now }
    {
        self.inner.len() as u32
    }

    pub fn is_empty(&self) -> bool
        ensures { IsTrue result ↔ (self.now ≡ []) }
    {
        self.inner.is_empty()
    }
}

impl Clone for Bits {
    ghost use Rattle.std.specs.Prelude.{◌≡◌};

    ghost is_clone = { λ bits copy. copy ≡ bits };

    fn clone(&self) -> Result<Bits, AllocError> {
        Ok(Bits {
            inner: self.inner.clone()?,
        })
    }
}

ghost use Rattle.std.specs.Prelude.{◌≡◌, ◌≤◌, ◌+◌, ◌++◌, ◌∷◌, [], IfOk, OnOk, OnErr, length};
ghost use Rattle.vtr_base.specs.Outside.{Rose, written, WrittenPart};
ghost use Rattle.fasm_text.specs.Writing.{WrittenLine, with_piece, emptied};

use std::alloc::{AllocError, Global};
use std::marker::Model;
use vtr_base::{Sink, SinkFailed};

/// Writes lines, one put a line, in room that is taken once. Contracts see the line so far and the
/// greatest length of a line with its line feed.
#[derive(Drop)]
pub struct LineWriter {
    line: Vec<u8>,
    longest: usize,
}

impl Model for LineWriter {
    ghost use Rattle.std.specs.Prelude.{◌≤◌, ◌+◌, length, vec_capacity};
    ghost use Rattle.fasm_text.specs.Writing.{WrittenLine};

    ghost Value = { WrittenLine };

    ghost view = { λ w. record { so_far = w.line.items; longest = w.longest } };

    ghost invariant = { λ w.
        (w.longest ≤ vec_capacity w.line) × (length w.line.items + 1 ≤ vec_capacity w.line) };
}

impl LineWriter {
    /// A writer with an empty line and room for lines of so many bytes, line feeds counted.
    pub fn with_room(alloc: Global, longest: usize) -> Result<LineWriter, AllocError>
        ensures { IfOk result (λ w. w ≡ record { so_far = []; longest = longest }) }
    {
        Ok(LineWriter {
            line: Vec::with_capacity(alloc, longest.max(1))?,
            longest,
        })
    }

    /// Appends the piece to the line so far.
    pub fn add(&mut self, piece: &[u8])
        requires { length self.old.so_far + length piece.now + 1 ≤ self.old.longest }
        ensures { self.new ≡ with_piece self.old piece.now }
    {
        let _fits = self.line.extend_from_slice(piece);
    }

    /// Puts the line and a line feed in one put, and tells how many bytes these are. After it the
    /// line is empty, also where the sink failed.
    pub fn send<K: Sink>(&mut self, out: &mut K) -> Result<u64, SinkFailed>
        ensures sent { OnOk result
            (K.bytes out.new ≡ written (self.old.so_far ++ 10 ∷ []) (K.bytes out.old)) }
        ensures count { IfOk result (λ n. n ≡ length self.old.so_far + 1) }
        ensures part { OnErr result
            (WrittenPart (self.old.so_far ++ 10 ∷ []) (K.bytes out.old) (K.bytes out.new)) }
        ensures failed { OnErr result (Rose (K.faults out.old) (K.faults out.new)) }
        ensures faults { K.faults out.old ≤ K.faults out.new }
        ensures beside { K.beside out.new ≡ K.beside out.old }
        ensures empty { self.new ≡ emptied self.old }
    {
        let _fits = self.line.push(b'\n');
        let sent = out.put(self.line.as_slice());
        let count = self.line.len() as u64;
        self.line.clear();
        match sent {
            Ok(()) => Ok(count),
            Err(failed) => Err(failed),
        }
    }
}

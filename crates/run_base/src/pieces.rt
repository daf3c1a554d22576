ghost use Rattle.std.specs.Prelude.{◌≡◌, ◌++◌, ℕ, List, Option};
ghost use Rattle.vtr_base.specs.Outside.{written, WrittenPart};

use std::alloc::{AllocError, Global};
use thiserror::Error;
use vtr_base::{Sink, SinkFailed};

/// Why a text was not put whole.
#[derive(Clone, Copy, Debug, PartialEq, Eq, Drop, Error)]
pub enum PutError {
    /// The sink took not all of a piece, and its count of faults rose.
    #[error("the output could not be written")]
    Sink,
    /// Memory ran out while a piece was made.
    #[error("out of memory")]
    Memory,
}

impl From<SinkFailed> for PutError {
    ghost use Rattle.std.specs.Prelude.{◌≡◌};
    ghost use Rattle.run_base.specs.declared.pieces.PutError.TheVariants.{Sink};

    ghost from_gives = { λ _ e. e ≡ Sink };

    fn from(_e: SinkFailed) -> PutError {
        PutError::Sink
    }
}

impl From<AllocError> for PutError {
    ghost use Rattle.std.specs.Prelude.{◌≡◌};
    ghost use Rattle.run_base.specs.declared.pieces.PutError.TheVariants.{Memory};

    ghost from_gives = { λ _ e. e ≡ Memory };

    fn from(_e: AllocError) -> PutError {
        PutError::Memory
    }
}

/// A text that is put on a sink piece by piece, so that it never stands in memory whole. `text` is
/// what it is in full.
pub trait OutputText {
    ghost use Rattle.std.specs.Prelude.{◌≡◌, ◌≤◌, ℕ, List, OnOk, OnErr, IsErrOf};
    ghost use Rattle.vtr_base.specs.Outside.{Rose, written, WrittenPart};

    ghost text: { Self → List ℕ };

    /// Puts the text. Where that fails, the sink has a front of it.
    fn put_on<K: Sink>(&self, alloc: Global, sink: &mut K) -> Result<(), PutError>
        ensures count { K.faults sink.old ≤ K.faults sink.new }
        ensures beside { K.beside sink.new ≡ K.beside sink.old }
        ensures ok { OnOk result (K.bytes sink.new ≡ written (text self.now) (K.bytes sink.old)) }
        ensures part { OnErr result
            (WrittenPart (text self.now) (K.bytes sink.old) (K.bytes sink.new)) }
        ensures failed { IsErrOf result PutError.Sink →
            Rose (K.faults sink.old) (K.faults sink.new) };
}

/// A text that stands in memory, put in one piece.
#[derive(Clone, Copy)]
pub struct Whole<'t> {
    pub bytes: &'t [u8],
}

impl<'t> OutputText for Whole<'t> {
    ghost text = { λ t. t.bytes.now };

    fn put_on<K: Sink>(&self, _alloc: Global, sink: &mut K) -> Result<(), PutError> {
        sink.put(self.bytes)?;
        Ok(())
    }
}

/// What a text of several pieces rests on: a front of a piece is a front of the text that it
/// begins, and a piece with a front of the rest behind it is a front of both.
pub fn fronts_of_pieces()
    ensures begins { (piece rest : List ℕ) (old new : Option (List ℕ)) →
        WrittenPart piece old new → WrittenPart (piece ++ rest) old new }
    ensures goes_on { (piece rest : List ℕ) (old mid new : Option (List ℕ)) →
        mid ≡ written piece old → WrittenPart rest mid new → WrittenPart (piece ++ rest) old new }
{}

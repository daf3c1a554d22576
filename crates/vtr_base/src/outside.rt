ghost use Rattle.std.specs.Prelude.{◌≡◌, ◌≤◌, ◌<◌, ℕ, List, [], Option, Some, None, OnOk, OnErr, IsErrOf, length};
ghost use Rattle.vtr_base.specs.Outside.{Files, file, Beside, Rose, WhereKnown, IsOnShelf, IsLongerOnShelf, written, WrittenPart, BeginsPart, AppendsPart, appended, begun};

use thiserror::Error;

/// Why a shelf gave or took nothing.
#[derive(Clone, Copy, Debug, PartialEq, Eq, Drop, Error)]
pub enum ShelfError {
    /// The shelf holds no file of that name.
    #[error("there is no such file")]
    Missing,
    /// The outside failed, and the shelf's count of faults rose.
    #[error("the file could not be read or written")]
    Failed,
    /// The file has more bytes than there was room for.
    #[error("the file is too long")]
    TooLong,
    #[error("out of memory")]
    OutOfMemory,
}

/// The sink took not all of a piece, and its count of faults rose.
#[derive(Clone, Copy, Debug, PartialEq, Eq, Drop, Error)]
#[error("the output could not be written")]
pub struct SinkFailed;

/// Where files come from and go to. `files` is what it holds, where it tells that: a finite map
/// from names to bytes. `faults` counts failures of the outside and never falls; it stands still
/// at 2^64 - 1.
pub trait Shelf {
    ghost files: { Self → Option Files };

    ghost faults: { Self → ℕ };

    /// Puts the whole file into `into`, whose old bytes are dropped. A file of more than `room`
    /// bytes is refused.
    fn fetch(&mut self, name: &str, room: u64, into: &mut Vec<u8>) -> Result<(), ShelfError>
        ensures held { files self.new ≡ files self.old }
        ensures count { faults self.old ≤ faults self.new }
        ensures room { OnOk result (length into.new.items ≤ room) }
        ensures found { OnOk result (WhereKnown (files self.old)
            (λ m. file m name.now ≡ Some into.new.items)) }
        ensures nothing { OnErr result (into.new.items ≡ []) }
        ensures failed { IsErrOf result ShelfError.Failed → Rose (faults self.old)
            (faults self.new) }
        ensures calm_missing { IsErrOf result ShelfError.Missing → faults self.new ≡ faults
            self.old }
        ensures calm_long { IsErrOf result ShelfError.TooLong → faults self.new ≡ faults self.old }
        ensures missing { IsErrOf result ShelfError.Missing → WhereKnown (files self.old)
            (λ m. file m name.now ≡ None) }
        ensures too_long { IsErrOf result ShelfError.TooLong → WhereKnown (files self.old)
            (λ m. IsLongerOnShelf m name.now room) };

    /// Leaves the name held with no bytes.
    fn begin(&mut self, name: &str) -> Result<(), ShelfError>
        ensures count { faults self.old ≤ faults self.new }
        ensures ok { OnOk result (files self.new ≡ begun name.now (files self.old)) }
        ensures failed { IsErrOf result ShelfError.Failed → Rose (faults self.old) (faults self.new)
            × BeginsPart name.now (files self.old) (files self.new) }
        ensures memory { IsErrOf result ShelfError.OutOfMemory → files self.new ≡ files self.old }
        ensures never_missing { IsErrOf result ShelfError.Missing → ⊥ }
        ensures never_long { IsErrOf result ShelfError.TooLong → ⊥ };

    /// Adds the piece to the end of a file that is held.
    fn append(&mut self, name: &str, piece: &[u8]) -> Result<(), ShelfError>
        requires { WhereKnown (files self.old) (λ m. IsOnShelf m name.now) }
        ensures count { faults self.old ≤ faults self.new }
        ensures ok { OnOk result (files self.new ≡ appended name.now piece.now (files self.old)) }
        ensures failed { IsErrOf result ShelfError.Failed → Rose (faults self.old) (faults self.new)
            × AppendsPart name.now piece.now (files self.old) (files self.new) }
        ensures memory { IsErrOf result ShelfError.OutOfMemory → files self.new ≡ files self.old }
        ensures never_missing { IsErrOf result ShelfError.Missing → ⊥ }
        ensures never_long { IsErrOf result ShelfError.TooLong → ⊥ };
}

/// Where printed bytes go. `bytes` is what was written so far, and `beside` what stands beside
/// these bytes, each where the sink tells it. `faults` counts failures and never falls; it stands
/// still at 2^64 - 1.
pub trait Sink {
    ghost bytes: { Self → Option (List ℕ) };

    ghost beside: { Self → Option Beside };

    ghost faults: { Self → ℕ };

    /// Adds the piece, or a front of it where the sink fails.
    fn put(&mut self, piece: &[u8]) -> Result<(), SinkFailed>
        ensures count { faults self.old ≤ faults self.new }
        ensures beside { beside self.new ≡ beside self.old }
        ensures ok { OnOk result (bytes self.new ≡ written piece.now (bytes self.old)) }
        ensures part { OnErr result (WrittenPart piece.now (bytes self.old) (bytes self.new)) }
        ensures failed { OnErr result (Rose (faults self.old) (faults self.new)) };
}

ghost use Rattle.std.specs.Prelude.{◌≡◌};
ghost use Rattle.elem_text.specs.declared.lex.Flaw.TheVariants.{OutOfMemory};

use crate::elem::Attr;
use sqlite_items::Items;
use std::alloc::AllocError;

/// Why no piece was read.
#[derive(Clone, Copy, Drop)]
pub enum Flaw {
    /// The file's end cuts it off.
    Cut,
    /// No bytes behind these make a piece of them.
    Bad,
    OutOfMemory,
}

impl From<AllocError> for Flaw {
    ghost from_gives = { λ _ e. e ≡ OutOfMemory };

    fn from(_e: AllocError) -> Flaw {
        Flaw::OutOfMemory
    }
}

/// A piece of a file, without its place. Names and runs are as they stand in the file.
#[derive(Drop)]
pub enum Lex<'a> {
    Opens(&'a [u8], Items<Attr>),
    Hollow(&'a [u8], Items<Attr>),
    Closes(&'a [u8]),
    Run(&'a [u8]),
    Skip,
}

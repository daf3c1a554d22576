ghost use Rattle.std.specs.Prelude.{◌≡◌};
ghost use Rattle.arch_links.specs.declared.error.LinkError.TheVariants.{OutOfMemory};

use std::alloc::{AllocError, AllocFailed};
use thiserror::Error;
use vtr_base::Text;

/// What one part of an architecture file names that isn't there, or isn't like it.
#[derive(Debug, Drop, Error)]
pub enum LinkError {
    /// The ports of a tile's site, one by one in file order, differ from the tile's in number,
    /// name, side or width. `site` is the name of its block type.
    #[error("the ports of a site are not those of its tile")]
    SitePorts { tile: Text, site: Text },
    /// A site of a tile names no block type.
    #[error("a site names no block type")]
    NoSuchBlock { name: Text },
    /// A `.subckt` leaf names no model.
    #[error("a leaf names no model")]
    UnknownModel { name: Text },
    #[error("out of memory")]
    OutOfMemory,
}

impl From<AllocError> for LinkError {
    ghost from_gives = { λ _ e. e ≡ OutOfMemory };

    fn from(_e: AllocError) -> LinkError {
        LinkError::OutOfMemory
    }
}

impl<T: Drop> From<AllocFailed<T>> for LinkError {
    ghost from_gives = { λ _ e. e ≡ OutOfMemory };

    fn from(_e: AllocFailed<T>) -> LinkError {
        LinkError::OutOfMemory
    }
}

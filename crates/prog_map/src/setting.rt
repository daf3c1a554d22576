ghost use Rattle.std.specs.Prelude.{◌≡◌};
ghost use Rattle.prog_map.specs.Sites.{site_of};

use crate::{LSite, LutChoice};
use pb_expand::{EdgeIx, PbIx, PinIx};

/// A site and its choice.
#[derive(Debug, Drop)]
pub enum Setting {
    /// An instance and its mode.
    Mode(PbIx, u32),
    /// A pin in a mode, and the edge that it takes.
    Pick(PinIx, u32, EdgeIx),
    /// A leaf that is used.
    Used(PbIx),
    /// A LUT and what it holds.
    Lut(PbIx, LutChoice),
}

impl Setting {
    /// The site that is set.
    pub fn site(&self) -> LSite
        ensures { result ≡ site_of self.now }
    {
        match self {
            Setting::Mode(pb, _) => LSite::Mode(*pb),
            Setting::Pick(pin, mode, _) => LSite::Pin(*pin, *mode),
            Setting::Used(pb) => LSite::Used(*pb),
            Setting::Lut(pb, _) => LSite::Lut(*pb),
        }
    }
}

ghost use Rattle.std.specs.Prelude.{◌≡◌, ◌++◌, ℕ, Bool, List, OnOk};

use std::alloc::AllocError;
use vtr_base::Text;

/// An error that tells itself. `told` is what is printed of it: its number, its name and its
/// fields in order, each behind a space. `is_short` says whether it stands for want of memory,
/// which tells of no file.
pub trait Tell {
    ghost told: { Self → List ℕ };

    ghost is_short: { Self → Bool };

    /// Appends what is printed of the error. Where memory runs out, the text has a part of it.
    fn tell(&self, text: &mut Text) -> Result<(), AllocError>
        ensures { OnOk result (text.new ≡ text.old ++ told self.now) };

    /// Whether the error stands for want of memory.
    fn is_short_of_memory(&self) -> bool
        ensures { result ≡ is_short self.now };
}

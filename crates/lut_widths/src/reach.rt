ghost use Rattle.std.specs.Prelude.{◌≡◌, ◌<◌, ◌^◌, ◌↔◌, IsTrue};
ghost use Rattle.lut_widths.specs.Reaches.{ReachMisfits, reach_with, reach_with_sizes};

use crate::sizes::{LutSizes, is_table};

/// How far LUTs reach among the instances of children of one name: those of the one size in all
/// instances below `most`, and in the last instance below `other` one of another size.
#[derive(Clone, Copy, Debug)]
pub(crate) struct Reach {
    pub(crate) inputs: u32,
    pub(crate) most: u32,
    pub(crate) other: u32,
}

impl Reach {
    /// No LUTs.
    pub(crate) fn nowhere() -> Reach
        ensures { result ≡ record { inputs = 0; most = 0; other = 0 } }
    {
        Reach {
            inputs: 0,
            most: 0,
            other: 0,
        }
    }

    /// With LUTs of so many inputs in all instances below `count`.
    pub(crate) fn with(self, inputs: u32, count: u32) -> Reach
        ensures { result ≡ reach_with self inputs count }
    {
        if inputs == self.inputs {
            Reach {
                inputs: self.inputs,
                most: self.most.max(count),
                other: self.other,
            }
        } else if count <= self.most {
            Reach {
                inputs: self.inputs,
                most: self.most,
                other: self.other.max(count),
            }
        } else {
            Reach {
                inputs,
                most: count,
                other: self.most,
            }
        }
    }

    /// With LUTs of these sizes in all instances below `count`.
    pub(crate) fn with_sizes(self, sizes: LutSizes, count: u32) -> Reach
        ensures { result ≡ reach_with_sizes self sizes count }
    {
        match sizes {
            LutSizes::NoLut => self,
            LutSizes::Single(inputs) => self.with(inputs, count),
            LutSizes::Several(one, two) => self.with(one, count).with(two, count),
        }
    }

    /// Whether some LUT in the instance has no table of so many bits.
    pub(crate) fn misfit(self, instance: u32, width: u64) -> bool
        requires { width < 2 ^ 64 }
        ensures { IsTrue result ↔ ReachMisfits self instance width }
    {
        if is_table(width, self.inputs) {
            instance < self.other
        } else {
            instance < self.most
        }
    }
}

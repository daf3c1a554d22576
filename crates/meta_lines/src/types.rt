use mode_edges::LocalPin;
use sqlite_items::Items;
use vtr_base::Text;

/// A feature, of which a choice sets one bit.
#[derive(Debug, Drop)]
pub struct Feature {
    pub name: Text,
    pub bit: u32,
    /// The feature as it stands in the metadata: `NAME`, or `NAME[n]` with its digits.
    pub text: Text,
}

/// A field of bits, from `lo` up to `hi`.
#[derive(Debug, Drop)]
pub struct Field {
    pub name: Text,
    pub lo: u32,
    pub hi: u32,
}

/// How the tables of the LUTs under an owner are written (`fasm_type`).
#[derive(Clone, Copy, Debug, PartialEq, Eq)]
pub enum LutType {
    /// One field.
    Lut,
    /// A field for each child.
    SplitLut,
}

/// A field with the number of its line.
#[derive(Debug, Drop)]
pub struct LineField {
    pub line: u32,
    pub field: Field,
}

/// The field of the LUTs in one instance of a child.
#[derive(Debug, Drop)]
pub struct ChildField {
    pub line: u32,
    pub field: Field,
    /// The child's name, which may be no child's.
    pub child: Text,
    /// 4,294,967,295 stands for itself and for all numbers above it.
    pub instance: u32,
}

/// The field of a parameter.
#[derive(Debug, Drop)]
pub struct ParamField {
    pub field: Field,
    pub param: Text,
}

/// The features that the choice of an input pin sets.
#[derive(Debug, Drop)]
pub struct PinFeatures {
    pub pin: LocalPin,
    pub features: Items<Feature>,
}

use meta_lines::{ChildField, Feature, LineField, LutType, ParamField};
use sqlite_items::Items;
use vtr_base::Text;

/// What the metadata of a pb_type or of a mode says. Where the owner has no `meta` of a name, it
/// says nothing of that sort.
#[derive(Debug, Drop)]
pub struct OwnerMeta {
    /// `fasm_prefix`: one for each instance of a pb_type. A mode has none.
    pub prefixes: Option<Items<Text>>,
    /// `fasm_features`
    pub features: Option<Items<Feature>>,
    /// `fasm_type`
    pub lut_type: Option<LutType>,
    /// `fasm_lut`, which only an owner with a `fasm_type` has.
    pub luts: Option<LutFields>,
    /// `fasm_params`
    pub params: Option<Items<ParamField>>,
}

/// The fields of the LUTs under an owner.
#[derive(Debug, Drop)]
pub enum LutFields {
    /// One field for all.
    One(LineField),
    /// Fields by the instance of a child in which the LUT stands.
    Children(Items<ChildField>),
}

/// The sorts of metadata of a pb_type or of a mode.
#[derive(Clone, Copy, Debug, PartialEq, Eq)]
pub(crate) enum MetaSort {
    Prefix,
    Features,
    Kind,
    Luts,
    Params,
}

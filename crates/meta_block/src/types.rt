use meta_lines::PinFeatures;
use meta_said::OwnerMeta;
use sqlite_items::Items;

/// What the metadata of one owner says.
#[derive(Debug, Drop)]
pub enum OwnerSaid {
    PbType(OwnerMeta),
    Mode(OwnerMeta),
    /// The features of an interconnect's input pins, where it has a `fasm_mux`.
    Inter(Option<Items<PinFeatures>>),
}

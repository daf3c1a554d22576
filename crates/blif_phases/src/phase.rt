/// Where in a file a line stands.
#[derive(Clone, Copy, Debug, PartialEq, Eq)]
pub enum Phase {
    /// In front of the model. Lines here have no word.
    Before,
    /// In the model.
    Inside,
    /// Behind the `.end` of a model.
    Behind,
    /// In a later model, before its `.blackbox` line.
    Later,
    /// In a later model, behind its `.blackbox` line.
    BlackBox,
}

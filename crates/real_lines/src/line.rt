use pb_expand::PbIx;
use prog_map::Setting;
use task_types::Entry;

/// What a line of a realisation's text says.
#[derive(Debug, Drop)]
pub enum RealLine {
    /// The leaf that is the home of an atom, which goes by its place in the task.
    Home { place: u32, leaf: PbIx },
    /// A net that comes in at a pin of the block.
    Enter(Entry),
    /// A choice of the programming.
    Choice(Setting),
}

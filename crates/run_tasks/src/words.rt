/// The words that tell a task.
#[derive(Clone, Copy)]
pub struct TaskWords<'w> {
    /// The file of the architecture.
    pub arch: &'w str,
    /// The file of the netlist.
    pub blif: &'w str,
    /// The name of a block type of the architecture.
    pub block: &'w str,
    /// The file of the list of atoms.
    pub atoms: &'w str,
}

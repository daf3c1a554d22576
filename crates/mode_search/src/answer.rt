use task_types::{Real, Tree};

/// What a search of a task found.
#[derive(Drop)]
pub enum Answer {
    /// This realises the task.
    Legal(Real),
    /// This tree refutes the task: nothing realises it.
    Refuted(Tree),
    /// The tree of a search that gave up after as many branches as it was allowed.
    Undecided(Tree),
}

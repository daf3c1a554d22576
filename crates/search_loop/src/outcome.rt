use task_types::Tree;

/// How a search ends.
#[derive(Drop)]
pub enum Outcome {
    /// Nothing is left to be decided: what was decided stands on the trail.
    Found,
    /// This tree refutes the task.
    Refuted(Tree),
    /// The tree of a search that gave up after as many branches as it was allowed.
    GivenUp(Tree),
}

/// How a run ended. Each has its exit status.
#[derive(Clone, Copy, Debug, PartialEq, Eq)]
pub enum Status {
    /// 0: the command is done.
    Done,
    /// 2: the words are no command.
    Words,
    /// 3: a file was refused.
    Refused,
    /// 4: the outside failed.
    Outside,
    /// 5: memory ran out.
    Memory,
    /// 10: a tree refutes the task.
    Refuted,
    /// 11: within the given nodes nothing was decided.
    Undecided,
    /// 12: two programmings can't be told apart by their bits.
    Confusable,
    /// 13: an atom fits no block type.
    NoBlock,
    /// 14: there are more blocks than sites.
    NoRoom,
    /// 15: a net has no path.
    Blocked,
    /// 16: wires are still shared after the given rounds.
    Congested,
    /// 17: a design isn't legal.
    Illegal,
    /// 18: bits belong to no programming.
    Unknown,
    /// 19: a node of a tree isn't accepted.
    Wrong,
}

impl Status {
    ghost use Rattle.std.specs.Prelude.{◌≡◌};
    ghost use Rattle.run_base.specs.Statuses.{code_of};

    /// The exit status of the process.
    pub fn code(&self) -> u8
        ensures { result ≡ code_of self.now }
    {
        match self {
            Status::Done => 0,
            Status::Words => 2,
            Status::Refused => 3,
            Status::Outside => 4,
            Status::Memory => 5,
            Status::Refuted => 10,
            Status::Undecided => 11,
            Status::Confusable => 12,
            Status::NoBlock => 13,
            Status::NoRoom => 14,
            Status::Blocked => 15,
            Status::Congested => 16,
            Status::Illegal => 17,
            Status::Unknown => 18,
            Status::Wrong => 19,
        }
    }
}

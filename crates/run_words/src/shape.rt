/// What a plain word of a command is.
#[derive(Clone, Copy, Debug, PartialEq, Eq)]
pub enum WordKind {
    /// The name of a file that is read.
    Input,
    /// Any word.
    Text,
    /// 1 to 20 decimal digits, whose value is in this range.
    Number { least: u64, most: u64 },
    /// The name of a file that is written. No two of a command are equal.
    Output,
}

/// A command's row: its name, what each of its plain words is, in order, and its option, if it has
/// one.
#[derive(Clone, Copy)]
pub struct Shape<'t> {
    pub name: &'t str,
    pub words: &'t [WordKind],
    pub option: Option<&'t str>,
}

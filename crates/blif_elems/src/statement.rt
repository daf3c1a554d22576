/// What a line says. Names are of the file; nets are names that no other file uses for something
/// else.
#[derive(Clone, Copy, Debug)]
pub enum Statement<'a> {
    /// There is no word.
    Nothing,
    /// `.model NAME`
    Model(&'a str),
    /// `.inputs ..`
    Inputs(&'a [&'a str]),
    /// `.outputs ..`
    Outputs(&'a [&'a str]),
    /// `.names a .. f`, with at most 8 inputs. Rows of its cover may follow.
    Names {
        inputs: &'a [&'a str],
        output: &'a str,
    },
    /// `.latch in out re control`, with an initial value or without.
    Latch {
        loaded: &'a str,
        made: &'a str,
        control: &'a str,
    },
    /// `.subckt MODEL ..`, with the words behind the model's name.
    Box {
        model: &'a str,
        pins: &'a [&'a str],
    },
    /// `.param NAME VALUE`
    Param {
        name: &'a str,
        value: &'a str,
    },
    /// `.attr` or `.cname`
    Passed,
    /// `.end`
    End,
    /// A line whose first word has no dot in front, as a row of a cover.
    Row(&'a [&'a str]),
}

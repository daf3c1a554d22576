ghost use Rattle.std.specs.Prelude.{◌≡◌, length, map};
ghost use Rattle.vtr_top.specs.Table.{IsTable, IsTaskOf, FitsRow};

use run_tasks::TaskWords;
use run_words::{Shape, WordKind};

/// A command with its words.
#[derive(Clone, Copy)]
pub(crate) enum Task<'w> {
    /// `trace ARCH BLOCK PROG`
    Trace {
        arch: &'w str,
        block: &'w str,
        prog: &'w str,
    },
    /// `refute ARCH BLIF BLOCK ATOMS TREE`
    Refute {
        of: TaskWords<'w>,
        tree: &'w str,
    },
}

/// The words of `trace`.
const TRACE_WORDS: [WordKind; 3] = [WordKind::Input, WordKind::Text, WordKind::Input];

/// The words of `refute`.
const REFUTE_WORDS: [WordKind; 5] = [
    WordKind::Input,
    WordKind::Input,
    WordKind::Text,
    WordKind::Input,
    WordKind::Input,
];

/// The row of `trace`.
const TRACE: usize = 0;

/// The row of `refute`.
const REFUTE: usize = 1;

/// The table of the commands.
pub(crate) fn table() -> [Shape<'static>; 2]
    ensures { IsTable result }
{
    [
        Shape {
            name: "trace",
            words: &TRACE_WORDS,
            option: None,
        },
        Shape {
            name: "refute",
            words: &REFUTE_WORDS,
            option: None,
        },
    ]
}

/// The task of a row with these plain words.
pub(crate) fn task_of<'w>(row: usize, plain: &[&'w str]) -> Task<'w>
    requires { FitsRow row (length plain.now) }
    ensures { IsTaskOf row (map (λ w. w.now) plain.now) result }
{
    match row {
        TRACE => trace_of(plain),
        REFUTE => refute_of(plain),
        _ => unreachable!(),
    }
}

/// The task of `trace` with these words.
fn trace_of<'w>(plain: &[&'w str]) -> Task<'w>
    requires { length plain.now ≡ 3 }
    ensures { IsTaskOf 0 (map (λ w. w.now) plain.now) result }
{
    match plain {
        [arch, block, prog] => Task::Trace { arch, block, prog },
        _ => unreachable!(),
    }
}

/// The task of `refute` with these words.
fn refute_of<'w>(plain: &[&'w str]) -> Task<'w>
    requires { length plain.now ≡ 5 }
    ensures { IsTaskOf 1 (map (λ w. w.now) plain.now) result }
{
    match plain {
        [arch, blif, block, atoms, tree] => Task::Refute {
            of: TaskWords {
                arch,
                blif,
                block,
                atoms,
            },
            tree,
        },
        _ => unreachable!(),
    }
}

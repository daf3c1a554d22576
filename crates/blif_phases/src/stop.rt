/// Why a line isn't read, by its words and by where it stands.
#[derive(Clone, Copy, Debug)]
pub enum Stop<'a> {
    /// 41: it isn't of the format, or doesn't stand where it may.
    BadLine,
    /// 44: a `.names` of the model has more than 8 inputs; its output.
    WideNames { net: &'a str },
    /// 46: a `.latch` that has an output isn't `re`, or has no control; its output.
    LatchKind { net: &'a str },
    /// 48: a word that begins with a dot isn't read.
    Unsupported { word: &'a str },
    /// A box stands outside the model; the name of its model. It is 49 where there is no such
    /// model, and else 41.
    StrayBox { model: &'a str },
}

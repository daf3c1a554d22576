/// Why the words of a line say nothing.
#[derive(Clone, Copy, Debug)]
pub enum Fault<'a> {
    /// 41: the line isn't of the format, and no other fault stands at it.
    BadLine,
    /// 44: a `.names` has more than 8 inputs; its output.
    WideNames { net: &'a str },
    /// 46: a `.latch` that has an output isn't `re`, or has no control; its output.
    LatchKind { net: &'a str },
    /// 48: a word that begins with a dot isn't read.
    Unsupported { word: &'a str },
}

//! Parts of texts and files: lines, words and decimal digits. What is read lends from the text.
#![tactic(auto)]

mod by_line;
mod by_word;
mod digits;
mod laws;

pub use by_line::{as_text, lines, next_line};
pub use by_word::{Word, blank_parts, trimmed, words};
pub use digits::{Number, number_up_to};
pub use laws::one_reading;

#[cfg(test)]
mod tests {
    use super::{Number, blank_parts, lines, number_up_to, words};
    use std::test::Fail;

    #[test]
    fn parts_of_a_file(rt: HostRuntime) -> Result<(), Fail> {
        let alloc = rt.alloc();
        let found = lines(alloc, b"a b\r\n\n c")?;
        assert_eq!(rt; found.len(), 3);
        assert_eq!(rt; found[0], b"a b".as_slice());
        assert_eq!(rt; found[2], b" c".as_slice());
        let second = words(alloc, b" c\td")?;
        assert_eq!(rt; second.len(), 2);
        assert_eq!(rt; second[1].at, 3);
        assert_eq!(rt; blank_parts(alloc, b"a  b")?.len(), 3);
        assert_eq!(rt; number_up_to(b"0065536", 65536), Number::Value(65536));
        assert_eq!(rt; number_up_to(b"65537", 65536), Number::Over);
        assert_eq!(rt; number_up_to(b"+1", 65536), Number::NoDigits);
        Ok(())
    }
}

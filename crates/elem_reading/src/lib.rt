//! Elements as readers of files use them: attributes that hold numbers, children of one name, and
//! lists of one sort over several parents. What is answered lends from the element.
#![tactic(auto)]

mod kids;
mod numbers;

pub use kids::{first_kid, kids_named, kids_under};
pub use numbers::{number_attribute, number_within};

#[cfg(test)]
mod tests {
    use super::{first_kid, kids_named, kids_under, number_attribute};
    use elem_text::read_elems;
    use std::test::Fail;
    use text_parts::Number;

    #[test]
    fn kids_and_numbers(rt: HostRuntime) -> Result<(), Fail> {
        let alloc = rt.alloc();
        let root = read_elems(alloc, b"<r><a><n id=\"7\"/></a><b/><a><n/><m/></a></r>")?;
        assert_eq!(rt; kids_named(alloc, &root, b"a")?.len(), 2);
        let found = kids_under(alloc, &root, b"a", b"n")?;
        assert_eq!(rt; found.len(), 2);
        assert_eq!(rt;
            number_attribute(found[0], b"id", 9),
            Some(Number::Value(7))
        );
        assert_eq!(rt; number_attribute(found[1], b"id", 9), None);
        assert!(rt; first_kid(&root, b"b").is_some());
        Ok(())
    }
}

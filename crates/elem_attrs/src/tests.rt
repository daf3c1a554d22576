use crate::number_up_to;
use std::test::Fail;

#[test]
fn numbers(rt: HostRuntime) -> Result<(), Fail> {
    let rows = [
        ("0", Some(0)),
        ("000001", Some(1)),
        ("65536", Some(65536)),
        ("65537", None),
        ("18446744073709551616", None),
        ("", None),
        ("+1", None),
        ("1 ", None),
    ];
    for (text, wanted) in rows {
        assert_eq!(rt; number_up_to(text.as_bytes(), 65536), wanted);
    }
    Ok(())
}

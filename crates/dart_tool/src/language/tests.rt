// Texts that have a lexical reason.
use super::{Stop, erase_text};
use crate::outcome::refused;
use std::test::Fail;

#[test]
fn reasons(rt: HostRuntime) -> Result<(), Fail> {
    let alloc = rt.alloc();
    let cases: [(&str, &[u8]); 4] = [
        ("main() { print('a); }", b"** refused BadToken a:1:16\n"),
        ("main() { print('$'); }", b"** refused BadToken a:1:16\n"),
        (
            "main() { print(170141183460469231731687303715884105728); }",
            b"** refused IntegerTooLarge a:1:16\n",
        ),
        (
            "main() { print(1.5); }",
            b"** refused LeftOut a:1:16 Doubles\n",
        ),
    ];
    for (text, want) in cases {
        match erase_text(alloc, text.as_bytes()) {
            Ok(_) | Err(Stop::Memory) => return Err(Fail::from("no reason")),
            Err(Stop::Refused(why)) => {
                let line = refused(alloc, why, b"a")?;
                assert_eq!(rt; line.bytes.as_slice(), want, "{text}");
            }
        }
    }
    Ok(())
}

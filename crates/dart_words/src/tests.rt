// Words that are commands, and words that are none.
use crate::budget::Budget;
use crate::options::Options;
use crate::words::{Verb, command};
use dart_base::limit::{USUAL_STEPS, USUAL_STORE_UNITS};
use std::alloc::{AllocError, Global};

fn words(alloc: Global, texts: &[&str]) -> Result<Vec<String>, AllocError> {
    let mut words = Vec::new(alloc);
    for text in texts {
        words.push(String::from_str(alloc, text)?)?;
    }
    Ok(words)
}

#[test]
fn commands(rt: HostRuntime) -> Result<(), AllocError> {
    let alloc = rt.alloc();
    for (texts, checked, steps, units) in [
        (
            ["run", "a"].as_slice(),
            false,
            USUAL_STEPS,
            USUAL_STORE_UNITS,
        ),
        (
            ["run", "--checked", "a"].as_slice(),
            true,
            USUAL_STEPS,
            USUAL_STORE_UNITS,
        ),
        (
            ["run", "--steps", "1", "a"].as_slice(),
            false,
            1,
            USUAL_STORE_UNITS,
        ),
        (
            ["run", "--units", "0002000000", "--checked", "a"].as_slice(),
            true,
            USUAL_STEPS,
            2_000_000,
        ),
        (
            [
                "run",
                "--units",
                "7",
                "--checked",
                "--steps",
                "1000000000",
                "a",
            ]
            .as_slice(),
            true,
            1_000_000_000,
            7,
        ),
    ] {
        let words = words(alloc, texts)?;
        let budget = Budget { steps, units };
        match command(&words) {
            Some((verb, file)) => {
                assert_eq!(rt; verb, Verb::Run(Options { checked, budget }));
                assert_eq!(rt; file.as_str(), "a");
            }
            None => assert!(rt; false, "{texts:?}"),
        }
    }
    Ok(())
}

#[test]
fn no_commands(rt: HostRuntime) -> Result<(), AllocError> {
    let alloc = rt.alloc();
    for texts in [
        ["run"].as_slice(),
        ["run", "--steps", "a"].as_slice(),
        ["run", "--steps", "5"].as_slice(),
        ["run", "--steps=5", "a"].as_slice(),
        ["run", "--steps", "5", "--steps", "5", "a"].as_slice(),
        ["run", "a", "--steps", "5"].as_slice(),
        ["run", "--steps", "0", "a"].as_slice(),
        ["run", "--steps", "1000000001", "a"].as_slice(),
        ["run", "--steps", "00000000005", "a"].as_slice(),
        ["run", "--steps", "+5", "a"].as_slice(),
        ["run", "--steps", "", "a"].as_slice(),
        ["run", "--units", "2000001", "a"].as_slice(),
        ["run", "--workers", "2", "a"].as_slice(),
        ["run", "--checked"].as_slice(),
        ["run", "--checked", "--checked", "a"].as_slice(),
        ["run", "--checked", "--steps", "5", "--checked", "a"].as_slice(),
        ["run", "a", "--checked"].as_slice(),
        ["run", "--steps", "--checked", "a"].as_slice(),
        ["run", "--checked=true", "a"].as_slice(),
        ["erase", "--checked", "a"].as_slice(),
        ["erase", "--steps", "5", "a"].as_slice(),
    ] {
        let words = words(alloc, texts)?;
        assert!(rt; command(&words).is_none(), "{texts:?}");
    }
    Ok(())
}

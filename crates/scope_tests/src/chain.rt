// Chains of files, as long and as heavy as a program may be, and beyond.
use crate::directive::{import, place};
use crate::load::Reader;
use dart_tree::unit::{Directive, Unit};
use scope_load::load::load;
use scope_load::reason::{LoadFault, Reason};
use scope_load::units::{Found, TakeFault, TextReason, UnitName, UnitReader};
use std::alloc::{AllocError, Global};
use std::test::Fail;

// So many files of a weight, each of which imports the next; one of them may be no unit.
#[derive(Drop)]
struct Chain {
    alloc: Global,
    count: u32,
    weight: u32,
    wrong: u32,
}

impl Chain {
    fn unit(&self, number: u32, file: u32) -> Result<Unit, AllocError> {
        let alloc = self.alloc;
        let mut directives = Vec::new(alloc);
        let next = file.saturating_add(1);
        if next < self.count {
            let text = format!(in alloc; "'f{next}'")?;
            let word = place(number, 1, 1);
            directives.push(Directive {
                metadata: Vec::new(alloc),
                kind: import(alloc, word, &[text.as_str()], place(number, 1, 8))?,
                semicolon: place(number, 1, 20),
            })?;
        }
        Ok(Unit {
            directives,
            declarations: Vec::new(alloc),
        })
    }
}

impl UnitReader<Chain> for Reader {
    ghost use Rattle.std.specs.Prelude.{⊤, None};

    ghost gives = { λ r s number name found. ⊤ };

    ghost files = { λ r s. None };

    ghost faults = { λ r s. 0 };

    fn take(&self, from: &mut Chain, number: u32, name: &UnitName) -> Result<Found, TakeFault> {
        let file = match name {
            UnitName::File(_) => number.saturating_sub(2),
            UnitName::Core | UnitName::Isolate => from.count,
        };
        if file == from.wrong {
            return Ok(Found::Refused(TextReason::TooLarge));
        }
        match from.unit(number, file) {
            Ok(unit) => Ok(Found::Read(unit, from.weight)),
            Err(_) => Err(TakeFault::Memory),
        }
    }
}

fn fault_kind(fault: &LoadFault) -> &'static str {
    match fault {
        LoadFault::TooLarge => "TooLarge",
        LoadFault::Refused(_, reason) => match reason {
            Reason::Text(_) => "Text",
            Reason::NotFound | Reason::LeftOut(_, _) | Reason::BadDirective(_) => "?",
        },
        LoadFault::Failed | LoadFault::Memory => "?",
    }
}

#[test]
fn too_many_files_or_too_much_weight(rt: HostRuntime) -> Result<(), Fail> {
    let alloc = rt.alloc();
    for (count, weight, wrong, want) in [
        (64, 3, 1000, "66 units"),
        (65, 3, 1000, "TooLarge"),
        (65, 3, 63, "Text"),
        (65, 3, 64, "TooLarge"),
        (2, 4_000_000, 1000, "4 units"),
        (2, 4_000_001, 1000, "TooLarge"),
        (2, 4_000_001, 1, "Text"),
    ] {
        let mut units = Chain {
            alloc,
            count,
            weight,
            wrong,
        };
        let got = match load(alloc, &Reader, &mut units, b"f0") {
            Ok(loaded) => {
                let number = loaded.units.len();
                format!(in alloc; "{number} units")?
            }
            Err(fault) => String::from_str(alloc, fault_kind(&fault))?,
        };
        assert_eq!(rt; got.as_str(), want);
    }
    Ok(())
}

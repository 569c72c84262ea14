// Orders of worked headers, and of many classes.

use crate::valid::are_listed;
use class_order::header::Header;
use class_order::order::{OrderFault, order};
use class_order::rows::{Row, Rows, lay_out};
use std::alloc::{AllocError, Global};
use std::process::Abort;
use std::test::Fail;

// A header that names these classes, with as many mixin applications.
fn header(alloc: Global, above: &[usize], applications: usize) -> Result<Header, AllocError> {
    Ok(Header {
        above: Vec::from_slice(alloc, above)?,
        applications,
    })
}

// The order of some headers, and the rows in that order. No contract says what they are, so tests are cheap to prove.
fn ordered(
    rt: &impl Abort,
    alloc: Global,
    headers: &[Header],
) -> Result<(Vec<usize>, Rows), OrderFault> {
    assert!(rt; are_listed(headers));
    let found = order(alloc, headers)?;
    let table = lay_out(alloc, headers, &found)?;
    Ok((found, table))
}

// Whether some class leads back to itself, and so has no order.
fn is_cyclic(rt: &impl Abort, alloc: Global, headers: &[Header]) -> Result<bool, OrderFault> {
    assert!(rt; are_listed(headers));
    match order(alloc, headers) {
        Ok(_) => Ok(false),
        Err(OrderFault::Cyclic) => Ok(true),
        Err(OrderFault::Memory) => Err(OrderFault::Memory),
    }
}

#[test]
fn diamond(rt: HostRuntime) -> Result<(), Fail> {
    let alloc = rt.alloc();
    let mut headers = Vec::new(alloc);
    headers.push(header(alloc, &[3, 1], 0)?)?;
    headers.push(header(alloc, &[2], 1)?)?;
    headers.push(header(alloc, &[], 0)?)?;
    headers.push(header(alloc, &[2], 0)?)?;
    let (found, table) = ordered(&rt, alloc, &headers)?;
    assert_eq!(rt; found.as_slice(), [2, 3, 1, 0].as_slice());
    assert_eq!(rt; table.numbers.as_slice(), [4, 3, 0, 1].as_slice());
    assert_eq!(rt; table.rows.len(), 5);
    assert_eq!(rt; table.rows[2], Row { class: 1, step: 0 });
    assert_eq!(rt; table.rows[3], Row { class: 1, step: 1 });
    Ok(())
}

#[test]
fn cycles(rt: HostRuntime) -> Result<(), Fail> {
    let alloc = rt.alloc();
    let mut headers = Vec::new(alloc);
    headers.push(header(alloc, &[], 0)?)?;
    headers.push(header(alloc, &[0, 2], 0)?)?;
    headers.push(header(alloc, &[0, 1], 0)?)?;
    assert!(rt; is_cyclic(&rt, alloc, &headers)?);
    let mut own = Vec::new(alloc);
    own.push(header(alloc, &[0], 0)?)?;
    assert!(rt; is_cyclic(&rt, alloc, &own)?);
    Ok(())
}

// Each class names the next one, which is the worst source order.
#[test]
fn chain_of_a_thousand(rt: HostRuntime) -> Result<(), Fail> {
    let alloc = rt.alloc();
    let mut headers = Vec::new(alloc);
    for class in 1..1000usize {
        headers.push(header(alloc, &[class], 0)?)?;
    }
    headers.push(header(alloc, &[], 0)?)?;
    let (found, _) = ordered(&rt, alloc, &headers)?;
    assert_eq!(rt; found.len(), 1000);
    for (i, class) in found.iter().enumerate() {
        assert_eq!(rt; *class, 999 - i);
    }
    Ok(())
}

// A class with a thousand mixins, and these mixins.
fn mixing_a_thousand(alloc: Global) -> Result<Vec<Header>, AllocError> {
    let mut headers = Vec::new(alloc);
    let mut above = Vec::new(alloc);
    for class in 1..1001usize {
        above.push(class)?;
    }
    headers.push(header(alloc, &above, 1000)?)?;
    for _ in 0..1000u32 {
        headers.push(header(alloc, &[], 0)?)?;
    }
    Ok(headers)
}

#[test]
fn thousand_mixins(rt: HostRuntime) -> Result<(), Fail> {
    let alloc = rt.alloc();
    let headers = mixing_a_thousand(alloc)?;
    let (_, table) = ordered(&rt, alloc, &headers)?;
    assert_eq!(rt; table.rows.len(), 2001);
    assert_eq!(rt; table.numbers.first(), Some(&2000));
    Ok(())
}

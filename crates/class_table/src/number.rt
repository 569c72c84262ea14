// The numbers of the classes in the table.
ghost use Rattle.std.specs.Prelude.{◌≡◌, ◌+◌, IfOk, slice_index};

use std::alloc::{AllocError, Global};

/// The number as one of 32 bits. A table in which one is larger fits no memory.
pub fn narrow(number: usize) -> Result<u32, AllocError>
    ensures { IfOk result (λ n. n ≡ number) }
{
    if number > u32::MAX as usize {
        return Err(AllocError);
    }
    Ok(number as u32)
}

/// The numbers as ones of 32 bits.
pub fn narrow_all(alloc: Global, numbers: &[usize]) -> Result<Vec<u32>, AllocError>
    ensures { IfOk result (λ v. v.items ≡ numbers.now) }
{
    let mut narrowed = Vec::new(alloc);
    for number in numbers {
        narrowed.push(narrow(*number)?)?;
    }
    Ok(narrowed)
}

/// The number in the table of the class with that number as a declaration.
pub fn number_of(numbers: &[u32], class: usize) -> u32
    ensures { result ≡ slice_index numbers.now class }
{
    match numbers.get(class) {
        Some(number) => *number,
        None => 0,
    }
}

/// The sum of two counts. A count that is larger than 32 bits fits no memory.
pub fn sum(a: u32, b: u32) -> Result<u32, AllocError>
    ensures { IfOk result (λ n. n ≡ a + b) }
{
    match a.checked_add(b) {
        Some(n) => Ok(n),
        None => Err(AllocError),
    }
}

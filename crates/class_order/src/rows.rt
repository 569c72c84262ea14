// The rows of the table: the classes in order, each after its mixin applications.
ghost use Rattle.std.specs.Prelude.{◌≡◌, IfOk, OnOk};
ghost use Rattle.class_order.specs.Order.{IsOrder};
ghost use Rattle.class_order.specs.Rows.{AreRows, AreAdded};

use crate::header::Header;
use std::alloc::{AllocError, Global};

/// A row of the table: the class that the mixin application of that number makes, counted from 0 (ECMA-408, Mixin
/// Application), or after all applications the class itself.
#[derive(Clone, Copy, Debug, PartialEq, Eq)]
pub struct Row {
    pub class: usize,
    pub step: usize,
}

/// The rows, and for each class the number of its own row.
#[derive(Drop)]
pub struct Rows {
    pub rows: Vec<Row>,
    pub numbers: Vec<usize>,
}

/// The rows of the classes in this order. A class's number is the place of its own row, and its mixin applications stand
/// directly before it.
pub fn lay_out(alloc: Global, headers: &[Header], order: &[usize]) -> Result<Rows, AllocError>
    requires { IsOrder headers.now order.now }
    ensures { IfOk result (λ t. AreRows headers.now t.rows.items t.numbers.items) }
{
    let mut rows = Vec::new(alloc);
    let mut numbers = vec![in alloc; 0; headers.len()]?;
    for class in order {
        let applications = headers[*class].applications;
        add_applications(&mut rows, *class, applications)?;
        numbers[*class] = rows.len();
        rows.push(Row {
            class: *class,
            step: applications,
        })?;
    }
    Ok(Rows { rows, numbers })
}

/// Adds the rows of a class's mixin applications.
fn add_applications(
    rows: &mut Vec<Row>,
    class: usize,
    applications: usize,
) -> Result<(), AllocError>
    ensures { OnOk result (AreAdded rows.old.items rows.new.items class applications) }
{
    for step in 0..applications {
        rows.push(Row { class, step })?;
    }
    Ok(())
}

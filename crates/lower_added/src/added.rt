// What is added to the classes of a table, one after another.
ghost use Rattle.std.specs.Prelude.{◌≡◌, ◌+◌, List, ℕ, IfOk, length, map};
ghost use Rattle.lower_added.specs.Added.{added_to, application_added, constructors_added, constructors_at, declared_added, forwarders, starts_added, with_unnamed, written_at};
ghost use Rattle.lower_added.specs.Written.{added, all_done, all_generative, generative, option_written, written};

use crate::written::{Generative, Written};
use lower_leaf::fault::Want;
use std::alloc::Global;

/// A class of the table, for what is added to it.
#[derive(Clone, Copy, Debug, PartialEq, Eq)]
pub struct Row {
    /// The class that declares its fields, by its number among the declared ones: itself, or of a mixin application its mixin.
    pub writes: Option<u32>,
    /// Whether it is a mixin application (ECMA-408, 12.1 Mixin Application).
    pub is_application: bool,
    /// The number of its superclass in the table.
    pub superclass: Option<u32>,
}

/// The generative constructors of a class of the table, and the next number behind what was added to it.
#[derive(Drop)]
pub struct Added {
    pub constructors: Vec<Generative>,
    pub next: u32,
}

fn next_by(number: u32, count: u32) -> Result<u32, Want>
    ensures { IfOk result (λ made. made ≡ number + count) }
{
    number.checked_add(count).ok_or(Want)
}

// The unnamed constructor, where none is written.
fn with_unnamed(alloc: Global, x: &Written, number: u32) -> Result<Added, Want>
    ensures { IfOk result (λ made. (texts : List (List ℕ)) → added texts made
        ≡ with_unnamed x.now.has_constructor (all_generative texts x.now.constructors) number) }
{
    let mut constructors = Vec::new(alloc);
    if x.has_constructor {
        constructors.extend_from_slice(&x.constructors)?;
        return Ok(Added {
            constructors,
            next: number,
        });
    }
    constructors.push(Generative { id: None, number })?;
    Ok(Added {
        constructors,
        next: next_by(number, 1)?,
    })
}

fn declared_added(alloc: Global, x: &Written, number: u32) -> Result<Added, Want>
    ensures { IfOk result (λ made. (texts : List (List ℕ)) → added texts made ≡ declared_added (written texts x.now) number) }
{
    with_unnamed(alloc, x, next_by(number, x.accessors)?)
}

// A constructor for each, with numbers from the first on, and the number behind them.
fn forwarders(alloc: Global, above: &[Generative], first: u32) -> Result<Added, Want>
    ensures constructors { IfOk result (λ made. (texts : List (List ℕ)) → all_generative texts made.constructors
        ≡ forwarders first (map (generative texts) above.now)) }
    ensures next { IfOk result (λ made. made.next ≡ first + length above.now) }
{
    let mut constructors = Vec::new(alloc);
    let mut next = first;
    for one in above {
        constructors.push(Generative {
            id: one.id,
            number: next,
        })?;
        next = next_by(next, 1)?;
    }
    Ok(Added { constructors, next })
}

fn application_added(
    alloc: Global,
    x: &Written,
    above: &[Generative],
    number: u32,
) -> Result<Added, Want>
    ensures { IfOk result (λ made. (texts : List (List ℕ)) → added texts made
        ≡ application_added (written texts x.now) (map (generative texts) above.now) number) }
{
    let behind_accessors = next_by(number, x.accessors)?;
    let first = next_by(behind_accessors, x.inner)?;
    forwarders(alloc, above, first)
}

fn added_to(
    alloc: Global,
    is_application: bool,
    of: Option<&Written>,
    above: &[Generative],
    number: u32,
) -> Result<Added, Want>
    ensures { IfOk result (λ made. (texts : List (List ℕ)) → added texts made
        ≡ added_to is_application (option_written texts of.entry) (map (generative texts) above.now) number) }
{
    match of {
        None => Ok(Added {
            constructors: Vec::new(alloc),
            next: number,
        }),
        Some(x) => {
            if is_application {
                return application_added(alloc, x, above, number);
            }
            declared_added(alloc, x, number)
        }
    }
}

fn written_at(all: &[Written], of: Option<u32>) -> Option<&Written>
    ensures { (texts : List (List ℕ)) → option_written texts result ≡ written_at (map (written texts) all.now) of }
{
    match of {
        None => None,
        Some(number) => all.get(number as usize),
    }
}

fn constructors_at(done: &[Vec<Generative>], of: Option<u32>) -> &[Generative]
    ensures { (texts : List (List ℕ)) → map (generative texts) result.now ≡ constructors_at (map (all_generative texts) done.now) of }
{
    match of {
        None => &[],
        Some(number) => match done.get(number as usize) {
            None => &[],
            Some(found) => found.as_slice(),
        },
    }
}

/// What is added to the classes of a table, by the number of the class.
#[derive(Drop)]
pub struct Additions {
    /// The number at which what is added to it begins: the first of its implicit accessors, where it has any.
    pub starts: Vec<u32>,
    /// Its generative constructors.
    pub constructors: Vec<Vec<Generative>>,
}

/// What is added to each class of a table, where all of it is numbered from the number on, class by class (ECMA-408, 10.5 Instance
/// Variables, 10.6 Constructors, 12.1 Mixin Application). `Want` where memory or numbers run out.
pub fn all_added(
    alloc: Global,
    all: &[Written],
    first: u32,
    rows: &[Row],
) -> Result<Additions, Want>
    ensures constructors { IfOk result (λ made. (texts : List (List ℕ)) → all_done texts made.constructors
        ≡ constructors_added (map (written texts) all.now) first rows.now) }
    ensures starts { IfOk result (λ made. (texts : List (List ℕ)) → made.starts.items ≡ starts_added (map (written texts) all.now) first rows.now) }
{
    let mut starts = Vec::new(alloc);
    let mut done: Vec<Vec<Generative>> = Vec::new(alloc);
    let mut number = first;
    for row in rows {
        let of = written_at(all, row.writes);
        let above = constructors_at(&done, row.superclass);
        let one = added_to(alloc, row.is_application, of, above, number)?;
        starts.push(number)?;
        number = one.next;
        done.push(one.constructors)?;
    }
    Ok(Additions {
        starts,
        constructors: done,
    })
}

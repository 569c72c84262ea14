// The walk over the headers, depth first in source order, on a stack of its own.
ghost use Rattle.std.specs.Prelude.{◌≡◌, ℕ, ◌<◌, ◌≤◌, ◌+◌, ◌^◌, ◌++◌, ◌∷◌, [], length, OnOk, slice_index};
ghost use Rattle.class_order.specs.Order.{HasCycle, AreListed, above};
ghost use Rattle.class_order.specs.Walk.{IsWalk, IsTouched, IsDone, mark_of, left};
ghost use Rattle.class_order.specs.declared.walk.Mark.TheVariants.{New};
ghost use Rattle.class_order.specs.declared.order.OrderFault.TheVariants.{Cyclic};

use crate::header::Header;
use crate::order::OrderFault;
use std::alloc::AllocError;

/// How far the walk has come with a class.
#[derive(Clone, Copy, Debug, PartialEq, Eq)]
pub enum Mark {
    New,
    /// It stands on the stack at this place.
    Open(usize),
    /// It stands in the order at this place.
    Done(usize),
}

/// A class that is begun, and how many of the classes that its header names are finished.
#[derive(Clone, Copy, Debug)]
pub struct Frame {
    pub class: usize,
    pub next: usize,
}

/// The state of the walk: the mark of each class, the finished classes, and those that are begun.
#[derive(Drop)]
pub struct Walk {
    pub marks: Vec<Mark>,
    pub order: Vec<usize>,
    pub stack: Vec<Frame>,
}

/// Walks from a class until it is finished.
pub fn visit(headers: &[Header], walk: &mut Walk, root: usize) -> Result<(), OrderFault>
    requires listed { AreListed headers.now }
    requires root { root < length headers.now }
    requires empty { walk.old.stack.items ≡ [] }
    requires walk { IsWalk headers.now walk.old.marks.items walk.old.order.items [] }
    requires first { (d : ℕ) → d < root → IsTouched walk.old.marks.items d }
    ensures empty { OnOk result (walk.new.stack.items ≡ []) }
    ensures walk { OnOk result (IsWalk headers.now walk.new.marks.items walk.new.order.items []) }
    ensures root { OnOk result (IsTouched walk.new.marks.items root) }
    ensures touched { OnOk result ((d : ℕ) → IsTouched walk.old.marks.items d → IsTouched walk.new.marks.items d) }
    ensures cyclic { result ≡ Err Cyclic → HasCycle headers.now }
{
    if walk.marks[root] != Mark::New {
        return Ok(());
    }
    begin_root(headers, walk, root)?;
    while let Some(frame) = walk.stack.pop() {
        step(headers, walk, frame)?;
    }
    Ok(())
}

/// Puts a class on the empty stack.
fn begin_root(headers: &[Header], walk: &mut Walk, root: usize) -> Result<(), AllocError>
    requires root { root < length headers.now }
    requires empty { walk.old.stack.items ≡ [] }
    requires walk { IsWalk headers.now walk.old.marks.items walk.old.order.items [] }
    requires new { mark_of walk.old.marks.items root ≡ New }
    requires first { (d : ℕ) → d < root → IsTouched walk.old.marks.items d }
    ensures walk { OnOk result (IsWalk headers.now walk.new.marks.items walk.new.order.items walk.new.stack.items) }
    ensures root { OnOk result (IsTouched walk.new.marks.items root) }
    ensures touched { OnOk result ((d : ℕ) → IsTouched walk.old.marks.items d → IsTouched walk.new.marks.items d) }
{
    walk.marks[root] = Mark::Open(0);
    walk.stack.push(Frame {
        class: root,
        next: 0,
    })?;
    Ok(())
}

/// One step of the class that has been taken off the stack.
fn step(headers: &[Header], walk: &mut Walk, frame: Frame) -> Result<(), OrderFault>
    requires listed { AreListed headers.now }
    requires walk { IsWalk headers.now walk.old.marks.items walk.old.order.items (walk.old.stack.items ++ frame ∷ []) }
    ensures walk { OnOk result (IsWalk headers.now walk.new.marks.items walk.new.order.items walk.new.stack.items) }
    ensures touched { OnOk result ((d : ℕ) → IsTouched walk.old.marks.items d → IsTouched walk.new.marks.items d) }
    ensures left { OnOk result (left headers.now walk.new.marks.items walk.new.stack.items
        < left headers.now walk.old.marks.items (walk.old.stack.items ++ frame ∷ [])) }
    ensures cyclic { result ≡ Err Cyclic → HasCycle headers.now }
{
    let above = &headers[frame.class].above;
    if frame.next >= above.len() {
        finish(headers, walk, frame)?;
        return Ok(());
    }
    let class = above[frame.next];
    match walk.marks[class] {
        Mark::Done(_) => {
            advance(headers, walk, frame)?;
            Ok(())
        }
        Mark::New => {
            begin(headers, walk, frame, class)?;
            Ok(())
        }
        Mark::Open(_) => Err(OrderFault::Cyclic),
    }
}

/// Puts a class back on the stack, past the class that its header names next, which is finished.
fn advance(headers: &[Header], walk: &mut Walk, frame: Frame) -> Result<(), AllocError>
    requires walk { IsWalk headers.now walk.old.marks.items walk.old.order.items (walk.old.stack.items ++ frame ∷ []) }
    requires within { frame.next < length (above headers.now frame.class) }
    requires done { IsDone (mark_of walk.old.marks.items (slice_index (above headers.now frame.class) frame.next)) }
    requires bound { length (above headers.now frame.class) < 2 ^ 64 }
    ensures walk { OnOk result (IsWalk headers.now walk.new.marks.items walk.new.order.items walk.new.stack.items) }
    ensures marks { walk.new.marks.items ≡ walk.old.marks.items }
    ensures left { OnOk result (left headers.now walk.new.marks.items walk.new.stack.items
        < left headers.now walk.old.marks.items (walk.old.stack.items ++ frame ∷ [])) }
{
    walk.stack.push(Frame {
        class: frame.class,
        next: frame.next + 1,
    })?;
    Ok(())
}

/// Puts a class back on the stack, and above it the class that its header names next.
fn begin(headers: &[Header], walk: &mut Walk, frame: Frame, class: usize) -> Result<(), AllocError>
    requires walk { IsWalk headers.now walk.old.marks.items walk.old.order.items (walk.old.stack.items ++ frame ∷ []) }
    requires within { frame.next < length (above headers.now frame.class) }
    requires is { class ≡ slice_index (above headers.now frame.class) frame.next }
    requires listed { class < length headers.now }
    requires new { mark_of walk.old.marks.items class ≡ New }
    ensures walk { OnOk result (IsWalk headers.now walk.new.marks.items walk.new.order.items walk.new.stack.items) }
    ensures touched { OnOk result ((d : ℕ) → IsTouched walk.old.marks.items d → IsTouched walk.new.marks.items d) }
    ensures left { OnOk result (left headers.now walk.new.marks.items walk.new.stack.items
        < left headers.now walk.old.marks.items (walk.old.stack.items ++ frame ∷ [])) }
{
    walk.stack.push(frame)?;
    walk.marks[class] = Mark::Open(walk.stack.len());
    walk.stack.push(Frame { class, next: 0 })?;
    Ok(())
}

/// Ends the class that has been taken off the stack.
fn finish(headers: &[Header], walk: &mut Walk, frame: Frame) -> Result<(), AllocError>
    requires listed { AreListed headers.now }
    requires walk { IsWalk headers.now walk.old.marks.items walk.old.order.items (walk.old.stack.items ++ frame ∷ []) }
    requires all { length (above headers.now frame.class) ≤ frame.next }
    ensures walk { OnOk result (IsWalk headers.now walk.new.marks.items walk.new.order.items walk.new.stack.items) }
    ensures touched { OnOk result ((d : ℕ) → IsTouched walk.old.marks.items d → IsTouched walk.new.marks.items d) }
    ensures left { OnOk result (left headers.now walk.new.marks.items walk.new.stack.items
        < left headers.now walk.old.marks.items (walk.old.stack.items ++ frame ∷ [])) }
{
    walk.marks[frame.class] = Mark::Done(walk.order.len());
    walk.order.push(frame.class)?;
    Ok(())
}

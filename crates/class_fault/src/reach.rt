// Whether headers lead from a class to another.
ghost use Rattle.std.specs.Prelude.{◌≡◌, ℕ, ◌<◌, true, length, IfOk, OnOk, IsTrue, ◌↔◌, slice_index};
ghost use Rattle.class_order.specs.Order.{AreListed, above};
ghost use Rattle.class_fault.specs.Reach.{LeadsTo};
ghost use Rattle.class_fault.specs.Search.{IsSearch, IsSeenMore, is_seen};

use class_order::header::Header;
use std::alloc::{AllocError, Global};

/// Whether the class is the goal, or headers lead from it to the goal. It takes time linear in the headers.
pub fn does_lead(
    alloc: Global,
    headers: &[Header],
    from: usize,
    goal: usize,
) -> Result<bool, AllocError>
    requires listed { AreListed headers.now }
    requires from { from < length headers.now }
    requires goal { goal < length headers.now }
    ensures { IfOk result (λ b. IsTrue b ↔ LeadsTo headers.now from goal) }
{
    let mut seen = vec![in alloc; false; headers.len()]?;
    let mut queue = Vec::new(alloc);
    see(headers, &mut seen, &mut queue, from, from)?;
    let mut i = 0;
    while i < queue.len() {
        see_above(headers, &mut seen, &mut queue, from, i)?;
        i += 1;
    }
    Ok(seen[goal])
}

/// Puts the classes that a header names into the queue, where they weren't seen.
fn see_above(
    headers: &[Header],
    seen: &mut Vec<bool>,
    queue: &mut Vec<usize>,
    from: usize,
    i: usize,
) -> Result<(), AllocError>
    requires listed { AreListed headers.now }
    requires i { i < length queue.old.items }
    requires search { IsSearch headers.now from seen.old.items queue.old.items }
    ensures search { OnOk result (IsSearch headers.now from seen.new.items queue.new.items) }
    ensures more { OnOk result (IsSeenMore seen.old.items seen.new.items queue.old.items queue.new.items) }
    ensures looked { OnOk result ((k : ℕ) → k < length (above headers.now (slice_index queue.old.items i))
        → is_seen seen.new.items (slice_index (above headers.now (slice_index queue.old.items i)) k) ≡ true) }
{
    let class = queue[i];
    for e in &headers[class].above {
        see(headers, seen, queue, from, *e)?;
    }
    Ok(())
}

/// Puts a class into the queue, if it wasn't seen.
fn see(
    headers: &[Header],
    seen: &mut Vec<bool>,
    queue: &mut Vec<usize>,
    from: usize,
    class: usize,
) -> Result<(), AllocError>
    requires listed { class < length headers.now }
    requires led { LeadsTo headers.now from class }
    requires search { IsSearch headers.now from seen.old.items queue.old.items }
    ensures search { OnOk result (IsSearch headers.now from seen.new.items queue.new.items) }
    ensures more { OnOk result (IsSeenMore seen.old.items seen.new.items queue.old.items queue.new.items) }
    ensures seen { OnOk result (is_seen seen.new.items class ≡ true) }
{
    if !seen[class] {
        seen[class] = true;
        queue.push(class)?;
    }
    Ok(())
}

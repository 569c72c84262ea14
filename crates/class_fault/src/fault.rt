// The first reason, in source order, to refuse the headers of the classes.
ghost use Rattle.std.specs.Prelude.{◌≡◌, ◌<◌, ◌↔◌, length, IfOk, OnOk, IsTrue};
ghost use Rattle.class_order.specs.Order.{AreListed, IsOrder, Leads};
ghost use Rattle.class_fault.specs.Graph.{IsGraph, HasRoots};
ghost use Rattle.class_fault.specs.Program.{declaration_at};
ghost use Rattle.class_fault.specs.Fault.{IsVerdict, IsFirst, IsFirstFrom, header_types, in_clause, extended};
ghost use Rattle.class_fault.specs.Reach.{LeadsTo};
ghost use Rattle.class_fault.specs.Scan.{IsScan, IsNamed, IsSomeNamed, AreNamed};
ghost use Rattle.class_fault.specs.declared.fault.HeaderFault.TheVariants.{Refused};

use crate::program::{Clause, Declaration, HeaderType, Program, class_named};
use crate::reach::does_lead;
use crate::verdict::static_reason;
use class_order::header::Header;
use class_order::order::{OrderFault, order};
use dart_base::place::Place;
use std::alloc::{AllocError, Global};
use thiserror::Error;

/// Why a header may not name a type.
#[derive(Clone, Copy, Debug, PartialEq, Eq)]
pub enum Reason {
    /// It leads back to the class itself.
    CyclicClasses,
    /// It is no class, or one that a class of a user's file may not name.
    BadSuper,
    /// It is a class that can't be mixed in.
    BadMixin,
}

/// A reason, at the type that has it.
#[derive(Clone, Copy, Debug, PartialEq, Eq)]
pub struct Fault {
    pub place: Place,
    pub reason: Reason,
}

/// Why headers are refused.
#[derive(Debug, Drop, PartialEq, Eq, Error)]
pub enum HeaderFault {
    /// The first type in source order that has a reason.
    #[error("a class header that names what it may not")]
    Refused(Fault),
    /// Memory ran out.
    #[error("out of memory")]
    Memory,
}

impl From<AllocError> for HeaderFault {
    ghost use Rattle.std.specs.Prelude.{◌≡◌};
    ghost use Rattle.class_fault.specs.declared.fault.HeaderFault.TheVariants.{Memory};

    ghost from_gives = { λ _ fault. fault ≡ Memory };

    fn from(_: AllocError) -> Self {
        HeaderFault::Memory
    }
}

/// The classes in an order in which each stands after all that its header names, or the first header type in source
/// order that has a reason (ECMA-408, Superclasses, Mixins and Superinterfaces). Where no class leads back to itself it
/// takes time linear in the headers.
pub fn checked_order(
    alloc: Global,
    program: &Program,
    headers: &[Header],
) -> Result<Vec<usize>, HeaderFault>
    requires graph { IsGraph program.now headers.now }
    requires listed { AreListed headers.now }
    requires roots { HasRoots program.now }
    ensures order { IfOk result (λ v. IsOrder headers.now v.items) }
    ensures none { OnOk result (IsFirstFrom program.now headers.now 0 None) }
    ensures refused { (f : Fault) → result ≡ Err (Refused f) → IsFirstFrom program.now headers.now 0 (Some f) }
{
    match order(alloc, headers) {
        Ok(found) => {
            let scan = Scan {
                program,
                headers,
                is_cyclic: false,
            };
            match scan.first_fault(alloc)? {
                None => Ok(found),
                Some(fault) => Err(HeaderFault::Refused(fault)),
            }
        }
        Err(OrderFault::Cyclic) => {
            let scan = Scan {
                program,
                headers,
                is_cyclic: true,
            };
            match scan.first_fault(alloc)? {
                None => unreachable!(),
                Some(fault) => Err(HeaderFault::Refused(fault)),
            }
        }
        Err(OrderFault::Memory) => Err(HeaderFault::Memory),
    }
}

/// A scan of the headers for the first type with a reason. Only where some class leads back to itself it searches.
#[derive(Clone, Copy)]
struct Scan<'a> {
    program: &'a Program,
    headers: &'a [Header],
    is_cyclic: bool,
}

impl Scan<'_> {
    /// The first header type in source order that has a reason.
    fn first_fault(&self, alloc: Global) -> Result<Option<Fault>, AllocError>
        requires { IsScan self.now.program.now self.now.headers.now self.now.is_cyclic }
        ensures { IfOk result (λ r. IsFirstFrom self.now.program.now self.now.headers.now 0 r) }
    {
        for class in 0..self.program.declarations.len() {
            if let Some(fault) = self.class_fault(alloc, class)? {
                return Ok(Some(fault));
            }
        }
        Ok(None)
    }

    /// The first type with a reason in the header of one class.
    fn class_fault(&self, alloc: Global, class: usize) -> Result<Option<Fault>, AllocError>
        requires scan { IsScan self.now.program.now self.now.headers.now self.now.is_cyclic }
        requires class { class < length self.now.program.now.declarations.items }
        ensures { IfOk result (λ r. (i : Declaration) → declaration_at self.now.program.now class ≡ Some i
            → IsFirst self.now.program.now self.now.headers.now class (header_types i) r) }
    {
        let declaration = &self.program.declarations[class];
        if let Some(fault) = self.superclass_fault(alloc, class, &declaration.superclass)? {
            return Ok(Some(fault));
        }
        if let Some(fault) = self.clause_fault(alloc, class, Clause::With, &declaration.mixins)? {
            return Ok(Some(fault));
        }
        // The answer has a name, by which the proof speaks of it.
        let last = self.clause_fault(alloc, class, Clause::Implements, &declaration.interfaces)?;
        Ok(last)
    }

    /// The reason that the superclass has, where a header names one.
    fn superclass_fault(
        &self,
        alloc: Global,
        class: usize,
        superclass: &Option<HeaderType>,
    ) -> Result<Option<Fault>, AllocError>
        requires scan { IsScan self.now.program.now self.now.headers.now self.now.is_cyclic }
        requires class { class < length self.now.program.now.declarations.items }
        requires named { IsSomeNamed self.now.headers.now class superclass.now }
        ensures { IfOk result (λ r. IsFirst self.now.program.now self.now.headers.now class (extended superclass.now) r) }
    {
        match superclass {
            None => Ok(None),
            Some(t) => match self.verdict(alloc, class, Clause::Extends, t)? {
                None => Ok(None),
                Some(reason) => Ok(Some(Fault {
                    place: t.place,
                    reason,
                })),
            },
        }
    }

    /// The first of some types of one clause that has a reason.
    fn clause_fault(
        &self,
        alloc: Global,
        class: usize,
        clause: Clause,
        types: &[HeaderType],
    ) -> Result<Option<Fault>, AllocError>
        requires scan { IsScan self.now.program.now self.now.headers.now self.now.is_cyclic }
        requires class { class < length self.now.program.now.declarations.items }
        requires named { AreNamed self.now.headers.now class types.now }
        ensures { IfOk result (λ r. IsFirst self.now.program.now self.now.headers.now class (in_clause clause types.now) r) }
    {
        for t in types {
            if let Some(reason) = self.verdict(alloc, class, clause, t)? {
                return Ok(Some(Fault {
                    place: t.place,
                    reason,
                }));
            }
        }
        Ok(None)
    }

    /// Why a clause of a class may not name a type.
    fn verdict(
        &self,
        alloc: Global,
        class: usize,
        clause: Clause,
        t: &HeaderType,
    ) -> Result<Option<Reason>, AllocError>
        requires scan { IsScan self.now.program.now self.now.headers.now self.now.is_cyclic }
        requires class { class < length self.now.program.now.declarations.items }
        requires named { IsNamed self.now.headers.now class t.now }
        ensures { IfOk result (λ r. IsVerdict self.now.program.now self.now.headers.now class clause t.now r) }
    {
        match class_named(&t.of) {
            None => Ok(Some(Reason::BadSuper)),
            Some(e) => {
                if self.leads_back(alloc, class, e)? {
                    return Ok(Some(Reason::CyclicClasses));
                }
                let declarations = &self.program.declarations;
                Ok(static_reason(
                    self.program,
                    &declarations[class],
                    e,
                    &declarations[e],
                    clause,
                ))
            }
        }
    }

    /// Whether class e, which the header of a class names, is that class or leads to it.
    fn leads_back(&self, alloc: Global, class: usize, e: usize) -> Result<bool, AllocError>
        requires scan { IsScan self.now.program.now self.now.headers.now self.now.is_cyclic }
        requires class { class < length self.now.headers.now }
        requires e { e < length self.now.headers.now }
        requires named { Leads self.now.headers.now class e }
        ensures { IfOk result (λ b. IsTrue b ↔ LeadsTo self.now.headers.now e class) }
    {
        if !self.is_cyclic {
            return Ok(false);
        }
        does_lead(alloc, self.headers, e, class)
    }
}

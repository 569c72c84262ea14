// Forms of the core language from their parts.
#![tactic(auto, using(crate::proofs::FormLaws::forms), unfolding(crate::specs::Forms::core, crate::specs::Forms::part, crate::specs::Around::ty))]

ghost use Rattle.std.specs.Prelude.{◌≡◌, IfOk};
ghost use Rattle.core_program.specs.Core as c;
ghost use Rattle.translation.specs.Walk as w;
ghost use Rattle.lower_leaf.specs.Forms.{core, part, cores, row_of, leaf, unary, binary, job};
ghost use Rattle.lower_leaf.specs.Around.{types, ty};

use crate::fault::Want;
use crate::surroundings::Surroundings;
use core_program::form::{Arguments, Binary, Core, Form, Job, Leaf, Part, Unary};
use dart_base::name::Name;
use dart_base::place::Place;
use dart_ir::number::{ClassId, DeclId};
use dart_ir::types::{TypeRef, Types};
use std::alloc::Global;

/// A form without parts.
pub fn leaf<S: Surroundings>(outside: &S, place: Place, of: Leaf) -> Core
    ensures { core (S.around outside.now) result ≡ c.at place (c.leaf (leaf (S.around outside.now) of)) }
{
    Core {
        place,
        form: Form::Leaf(of),
    }
}

/// The value that a type is (ECMA-408, 16.33 Identifier Reference).
pub fn type_literal<S: Surroundings>(outside: &S, place: Place, of: TypeRef) -> Core
    ensures { core (S.around outside.now) result ≡ c.at place (c.type_literal (ty (S.around outside.now) of)) }
{
    Core {
        place,
        form: Form::TypeLiteral(of),
    }
}

/// A form with one operand.
pub fn unary<S: Surroundings>(
    outside: &S,
    alloc: Global,
    place: Place,
    of: Unary,
    operand: Core,
) -> Result<Core, Want>
    ensures { IfOk result (λ made. core (S.around outside.now) made
        ≡ c.at place (c.unary (unary (S.around outside.now) of) (core (S.around outside.now) operand))) }
{
    let operand = Box::new(alloc, operand)?;
    Ok(Core {
        place,
        form: Form::Unary(of, operand),
    })
}

/// A form with two operands.
pub fn binary<S: Surroundings>(
    outside: &S,
    alloc: Global,
    place: Place,
    of: Binary,
    first: Core,
    second: Core,
) -> Result<Core, Want>
    ensures { IfOk result (λ made. core (S.around outside.now) made
        ≡ c.at place (c.binary (binary (S.around outside.now) of)
        (core (S.around outside.now) first) (core (S.around outside.now) second))) }
{
    let first = Box::new(alloc, first)?;
    let second = Box::new(alloc, second)?;
    Ok(Core {
        place,
        form: Form::Binary(of, first, second),
    })
}

/// Operands in order, the last of which go by name.
#[derive(Drop)]
pub struct Operands {
    pub forms: Vec<Core>,
    /// The names of as many of the last operands.
    pub names: Vec<Name>,
}

/// A form with any number of operands.
pub fn row<S: Surroundings>(outside: &S, place: Place, of: Job, operands: Operands) -> Core
    ensures { core (S.around outside.now) result
        ≡ c.at place (c.row (job (S.around outside.now) of)
        (c.cores (row_of (S.around outside.now) operands).forms) (row_of (S.around outside.now) operands).names) }
{
    Core {
        place,
        form: Form::Row(
            of,
            Arguments {
                forms: operands.forms,
                names: operands.names,
            },
        ),
    }
}

/// A fresh variable with the value, for the body.
pub fn let_in<S: Surroundings>(
    outside: &S,
    alloc: Global,
    place: Place,
    var: u32,
    value: Core,
    body: Core,
) -> Result<Core, Want>
    ensures { IfOk result (λ made. core (S.around outside.now) made
        ≡ c.at place (c.let_in var (core (S.around outside.now) value) (core (S.around outside.now) body))) }
{
    let value = Box::new(alloc, value)?;
    let body = Box::new(alloc, body)?;
    Ok(Core {
        place,
        form: Form::Let { var, value, body },
    })
}

/// Forms in order (17.1 Blocks).
pub fn block<S: Surroundings>(outside: &S, place: Place, forms: Vec<Core>) -> Core
    ensures { core (S.around outside.now) result ≡ c.at place (c.block (c.cores (cores (S.around outside.now) forms.items))) }
{
    Core {
        place,
        form: Form::Block(forms),
    }
}

/// A part that is written.
pub fn given<S: Surroundings>(outside: &S, alloc: Global, form: Core) -> Result<Part, Want>
    ensures { IfOk result (λ made. part (S.around outside.now) made ≡ c.given (core (S.around outside.now) form)) }
{
    Ok(Part::Given(Box::new(alloc, form)?))
}

/// A part that is not written.
pub fn missing<S: Surroundings>(outside: &S) -> Part
    ensures { part (S.around outside.now) result ≡ c.missing }
{
    Part::Missing
}

/// The first part exactly where the condition is `true`, else the second (17.5 If).
pub fn choice<S: Surroundings>(
    outside: &S,
    alloc: Global,
    place: Place,
    condition: Core,
    first: Part,
    second: Part,
) -> Result<Core, Want>
    ensures { IfOk result (λ made. core (S.around outside.now) made
        ≡ c.at place (c.choice (core (S.around outside.now) condition)
        (part (S.around outside.now) first) (part (S.around outside.now) second))) }
{
    let condition = Box::new(alloc, condition)?;
    Ok(Core {
        place,
        form: Form::If {
            condition,
            first,
            second,
        },
    })
}

/// A new object (16.12 Instance Creation).
pub fn new_object<S: Surroundings>(
    outside: &S,
    place: Place,
    class: ClassId,
    constructor: DeclId,
    given: Types,
    operands: Operands,
) -> Core
    ensures { core (S.around outside.now) result
        ≡ c.at place (c.new class.0 constructor.0 (types (S.around outside.now) given.items)
        (c.cores (row_of (S.around outside.now) operands).forms) (row_of (S.around outside.now) operands).names) }
{
    Core {
        place,
        form: Form::New {
            class,
            constructor,
            types: given,
            arguments: Arguments {
                forms: operands.forms,
                names: operands.names,
            },
        },
    }
}

/// A growable list (16.7 Lists).
pub fn list<S: Surroundings>(outside: &S, place: Place, given: Types, items: Vec<Core>) -> Core
    ensures { core (S.around outside.now) result
        ≡ c.at place (c.list (types (S.around outside.now) given.items) (c.cores (cores (S.around outside.now) items.items))) }
{
    Core {
        place,
        form: Form::List {
            types: given,
            items,
        },
    }
}

/// Whether the value is of the type (16.34 Type Test).
pub fn is_of<S: Surroundings>(
    outside: &S,
    alloc: Global,
    place: Place,
    value: Core,
    of: TypeRef,
) -> Result<Core, Want>
    ensures { IfOk result (λ made. core (S.around outside.now) made
        ≡ c.at place (c.is_type (core (S.around outside.now) value) (ty (S.around outside.now) of))) }
{
    let value = Box::new(alloc, value)?;
    Ok(Core {
        place,
        form: Form::Is(value, of),
    })
}

/// The value, where it is of the type or null (16.35 Type Cast).
pub fn cast<S: Surroundings>(
    outside: &S,
    alloc: Global,
    place: Place,
    value: Core,
    of: TypeRef,
) -> Result<Core, Want>
    ensures { IfOk result (λ made. core (S.around outside.now) made
        ≡ c.at place (c.as_type (core (S.around outside.now) value) (ty (S.around outside.now) of))) }
{
    let value = Box::new(alloc, value)?;
    Ok(Core {
        place,
        form: Form::As(value, of),
    })
}

/// A loop, by its number as a target (17.6 For, 17.7 While and 17.8 Do).
pub fn turns<S: Surroundings>(
    outside: &S,
    place: Place,
    target: u32,
    copies: Vec<u32>,
    condition: Part,
    update: Part,
    body: Part,
) -> Core
    ensures { core (S.around outside.now) result
        ≡ c.at place (c.loop target copies.items (part (S.around outside.now) condition)
        (part (S.around outside.now) update) (part (S.around outside.now) body)) }
{
    Core {
        place,
        form: Form::Loop {
            target,
            copies,
            condition,
            update,
            body,
        },
    }
}

/// The function returns the value, or null (17.12 Return).
pub fn returned<S: Surroundings>(outside: &S, place: Place, value: Part) -> Core
    ensures { core (S.around outside.now) result ≡ c.at place (c.return (part (S.around outside.now) value)) }
{
    Core {
        place,
        form: Form::Return(value),
    }
}

/// A statement with labels, by its number as a target (17.13 Labels).
pub fn labelled<S: Surroundings>(
    outside: &S,
    alloc: Global,
    place: Place,
    target: u32,
    body: Core,
) -> Result<Core, Want>
    ensures { IfOk result (λ made. core (S.around outside.now) made
        ≡ c.at place (c.labelled target (core (S.around outside.now) body))) }
{
    let body = Box::new(alloc, body)?;
    Ok(Core {
        place,
        form: Form::Labelled(target, body),
    })
}

/// Where a form stands.
pub fn place_of_core<S: Surroundings>(outside: &S, form: &Core) -> Place
    ensures { result ≡ w.place_of_core (core (S.around outside.now) form.now) }
{
    form.place
}

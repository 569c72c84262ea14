// The declarations of units (ECMA-408, 18 Libraries and Scripts).
ghost use Rattle.std.specs.Prelude.{◌≡◌, ◌++◌, map, OnOk};
ghost use Rattle.dart_tree.specs.UnitView as unit_view;
ghost use Rattle.translation.specs.Program as p;
ghost use Rattle.lower_leaf.specs.Gives.{Gives, itself};
ghost use Rattle.lower_leaf.specs.Nests.{NestsFunction};
ghost use Rattle.lower_leaf.specs.Seen.{seen};
ghost use Rattle.lower_body.specs.Views.{NamesClasses, nothing};
ghost use Rattle.lower_program.specs.Views.{all_made, option_made, source_unit};

use dart_tree::declaration::{Alias, Decl, DeclKind};
use dart_tree::parameter::Parameters;
use dart_tree::statement::Body;
use lower_body::class::{ClassMade, class_declared};
use lower_body::kept::parameters_kept;
use lower_function::function::numbered;
use lower_leaf::fault::{LowerFault, Want};
use lower_leaf::inner::Inner;
use lower_leaf::meaning::Outer;
use lower_leaf::state::State;
use lower_leaf::surroundings::Surroundings;
use lower_mixin::{accessor, function, static_standing, variables_declared};
use lower_operand::create::meeting_constant;
use std::alloc::Global;

/// The declarations of a unit of the library.
#[derive(Drop)]
pub struct SourceUnit<'a> {
    pub library: u32,
    pub declarations: &'a Vec<Decl>,
}

// An alias of a function type (19.3.1 Typedef).
fn alias_declared<S: Surroundings>(
    alloc: Global,
    outside: &S,
    state: &mut State,
    x: &Alias,
) -> Result<(), LowerFault>
    ensures { Gives nothing result (seen (S.around outside.now) state.new)
        (p.alias_declared (unit_view.alias x.now) (seen (S.around outside.now) state.old)) }
{
    numbered(outside, state)?;
    parameters_kept(alloc, outside, state, &x.type_parameters)
}

// An enumeration, whose values are constants (13 Enums).
fn enum_declared<S: Surroundings>(outside: &S, state: &mut State) -> Result<u32, LowerFault>
    ensures { Gives itself result (seen (S.around outside.now) state.new) (p.enum_declared (seen (S.around outside.now) state.old)) }
{
    meeting_constant(outside, state, true);
    numbered(outside, state)
}

// A declaration, with the class that it is if it is one.
fn declaration<
    'a,
    S: Surroundings,
    F: Fn(Global, &S, &mut State, usize, &Parameters, &Body) -> Result<u32, LowerFault>,
>(
    alloc: Global,
    outside: &S,
    inner: &Inner<F>,
    state: &mut State,
    of: &'a DeclKind,
) -> Result<Option<ClassMade<'a>>, LowerFault>
    requires nests { NestsFunction S.around inner.now.limit (F.pre inner.now.function) (F.post inner.now.function) }
    requires names { NamesClasses (S.around outside.now) }
    ensures { Gives (option_made (S.around outside.now)) result (seen (S.around outside.now) state.new)
        (p.declaration (unit_view.decl_kind of.now) (seen (S.around outside.now) state.old)) }
{
    match of {
        DeclKind::Class(x) => {
            let made = class_declared(alloc, outside, inner, state, x)?;
            return Ok(Some(made));
        }
        DeclKind::Alias(x) => {
            alias_declared(alloc, outside, state, x)?;
        }
        DeclKind::Function(x) => {
            function(alloc, outside, inner, state, &static_standing(), x)?;
        }
        DeclKind::Accessor(x) => {
            accessor(alloc, outside, inner, state, &static_standing(), x)?;
        }
        DeclKind::Variables(x) => {
            variables_declared(alloc, outside, inner, state, x)?;
        }
        DeclKind::Enum(_) => {
            enum_declared(outside, state)?;
        }
    }
    Ok(None)
}

// The class that a declaration is, behind those before it.
fn add_class<'a, S: Surroundings>(
    outside: &S,
    found: &mut Vec<ClassMade<'a>>,
    made: Option<ClassMade<'a>>,
) -> Result<(), Want>
    ensures { OnOk result (all_made (S.around outside.now) found.new
        ≡ all_made (S.around outside.now) found.old ++ option_made (S.around outside.now) made.entry) }
{
    if let Some(made) = made {
        found.push(made)?;
    }
    Ok(())
}

// The classes among these declarations.
fn declarations<
    'a,
    S: Surroundings,
    F: Fn(Global, &S, &mut State, usize, &Parameters, &Body) -> Result<u32, LowerFault>,
>(
    alloc: Global,
    outside: &S,
    inner: &Inner<F>,
    state: &mut State,
    all: &'a Vec<Decl>,
) -> Result<Vec<ClassMade<'a>>, LowerFault>
    requires nests { NestsFunction S.around inner.now.limit (F.pre inner.now.function) (F.post inner.now.function) }
    requires names { NamesClasses (S.around outside.now) }
    ensures { Gives (all_made (S.around outside.now)) result (seen (S.around outside.now) state.new)
        (p.declarations (map unit_view.decl all.now.items) (seen (S.around outside.now) state.old)) }
{
    let mut found = Vec::new(alloc);
    for one in all {
        let made = declaration(alloc, outside, inner, state, &one.kind)?;
        add_class(outside, &mut found, made)?;
    }
    Ok(found)
}

/// The classes of units, of which each is looked up in its library.
pub fn units<
    'a,
    S: Surroundings,
    F: Fn(Global, &S, &mut State, usize, &Parameters, &Body) -> Result<u32, LowerFault>,
>(
    alloc: Global,
    outside: &S,
    inner: &Inner<F>,
    state: &mut State,
    all: &'a Vec<SourceUnit<'a>>,
) -> Result<Vec<ClassMade<'a>>, LowerFault>
    requires nests { NestsFunction S.around inner.now.limit (F.pre inner.now.function) (F.post inner.now.function) }
    requires names { NamesClasses (S.around outside.now) }
    ensures { Gives (all_made (S.around outside.now)) result (seen (S.around outside.now) state.new)
        (p.units (map (source_unit (S.around outside.now)) all.now.items) (seen (S.around outside.now) state.old)) }
{
    let mut found = Vec::new(alloc);
    for one in all {
        state.outer = Outer {
            library: one.library,
            class: None,
        };
        let mut made = declarations(alloc, outside, inner, state, one.declarations)?;
        found.append(&mut made)?;
    }
    Ok(found)
}

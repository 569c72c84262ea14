// A variable is declared and found again, and leaves its scope.

use core_program::form::{Form, Leaf, Unary};
use dart_base::bytes::Bytes;
use dart_base::name::Name;
use dart_base::place::Place;
use dart_ir::native::NativeId;
use dart_ir::number::{ClassId, DeclId};
use dart_ir::types::{TypeRef, Types};
use dart_tree::identifier::Identifier;
use dart_tree::types::{TypeArguments, TypeNode};
use lower_leaf::fault::Want;
use lower_leaf::kept::kept_type;
use lower_leaf::meaning::{Constructor, Meaning, Mixin, Outer};
use lower_leaf::site::{tested, unasked};
use lower_leaf::state::{Inside, State, declared, depth, entry_of, leave_scope};
use lower_leaf::surroundings::Surroundings;
use lower_leaf::types::Typed;
use std::alloc::{AllocError, Global};
use std::test::Fail;

// Surroundings in which nothing is known.
struct Nothing;

impl Surroundings for Nothing {
    ghost use Rattle.std.specs.Prelude.{None, [], false};
    ghost use Rattle.dart_ir.specs.Ty.{dynamic};
    ghost use Rattle.translation.specs.Surroundings.{unknown, no_constructor};

    ghost around = { λ s. record {
      texts = [];
      names = λ outer. record { library = outer.library; meaning = λ name. unknown; prefixed = λ prefix name. unknown };
      tables = record {
        parameters = λ n. 0;
        is_bounded = λ n. false;
        superclass = λ n. None;
        mixin = λ n. None;
        first_field = λ n. 0;
        class_names = λ n. record { library = 0; meaning = λ name. unknown; prefixed = λ prefix name. unknown };
        static = λ n name. unknown;
        constructor = λ n id. no_constructor;
        variable_type = λ n. None;
        alias_type = λ n given. dynamic;
        native = λ n. None;
        int_class = 0;
        string_class = 0;
        map_class = 0;
      };
    } };

    fn find(&self, _name: &[u8]) -> Option<Name> {
        None
    }

    fn library(&self, outer: Outer) -> u32 {
        outer.library
    }

    fn meaning(&self, _outer: Outer, _name: &[u8]) -> Meaning {
        Meaning::Unknown
    }

    fn prefixed(&self, _outer: Outer, _prefix: &[u8], _name: &[u8]) -> Meaning {
        Meaning::Unknown
    }

    fn member_of(&self, _of: ClassId, _name: &[u8]) -> Meaning {
        Meaning::Unknown
    }

    fn constructor(&self, _of: ClassId, _id: &[u8]) -> Constructor {
        Constructor::Missing
    }

    fn parameters(&self, _of: ClassId) -> u32 {
        0
    }

    fn is_bounded(&self, _of: ClassId) -> bool {
        false
    }

    fn superclass(&self, _of: ClassId) -> Option<ClassId> {
        None
    }

    fn mixin(&self, _alloc: Global, _of: ClassId) -> Result<Option<Mixin>, Want> {
        Ok(None)
    }

    fn first_field(&self, _of: ClassId) -> u32 {
        0
    }

    fn variable_type(&self, _alloc: Global, _of: DeclId) -> Result<Option<TypeRef>, Want> {
        Ok(None)
    }

    fn alias_type(&self, _alloc: Global, _of: DeclId, _given: Types) -> Result<TypeRef, Want> {
        Err(Want)
    }

    fn native(&self, _of: DeclId) -> Option<NativeId> {
        None
    }

    fn int_class(&self) -> ClassId {
        ClassId(0)
    }

    fn string_class(&self) -> ClassId {
        ClassId(0)
    }

    fn map_class(&self) -> ClassId {
        ClassId(0)
    }
}

fn start(alloc: Global) -> State {
    State {
        outer: Outer {
            library: 3,
            class: None,
        },
        inside: Inside {
            class: None,
            arguments: None,
            has_instance: false,
            result: unasked(),
            gives_value: true,
            in_handler: false,
        },
        scopes: Vec::new(alloc),
        targets: Vec::new(alloc),
        variables: 5,
        declarations: 0,
        sites: Vec::new(alloc),
        literals: Vec::new(alloc),
        functions: Vec::new(alloc),
        statics: Vec::new(alloc),
        has_constants: false,
    }
}

fn place(line: u32) -> Place {
    Place {
        unit: 0,
        line,
        column: 1,
    }
}

// The calls that are tested, in functions that say nothing of their answers, so tests are cheap to prove.

fn declare(alloc: Global, state: &mut State, name: &[u8]) -> Result<u32, Fail> {
    let name = Bytes::from_slice(alloc, name)?;
    Ok(declared(alloc, &Nothing, state, name, unasked(), true)?)
}

fn variable_of(state: &State, name: &[u8]) -> Option<u32> {
    Some(entry_of(&Nothing, state, name)?.variable)
}

fn scopes(state: &State) -> usize {
    depth(&Nothing, state)
}

fn leave(state: &mut State, before: usize) {
    leave_scope(&Nothing, state, before);
}

// The name of a malformed type.
fn malformed(alloc: Global, state: &State, node: &TypeNode) -> Result<Option<Bytes>, Fail> {
    match kept_type(alloc, &Nothing, state, node)? {
        Typed::WellFormed(_) => Ok(None),
        Typed::Malformed(name) => Ok(Some(name)),
    }
}

#[test]
fn variables_in_scope(rt: HostRuntime) -> Result<(), Fail> {
    let alloc = rt.alloc();
    let mut state = start(alloc);
    let before = scopes(&state);
    assert_eq!(rt; declare(alloc, &mut state, b"a")?, 5);
    assert_eq!(rt; variable_of(&state, b"a"), Some(5));
    assert_eq!(rt; variable_of(&state, b"b"), None);
    leave(&mut state, before);
    assert_eq!(rt; variable_of(&state, b"a"), None);
    Ok(())
}

#[test]
fn private_types_are_malformed(rt: HostRuntime) -> Result<(), Fail> {
    let alloc = rt.alloc();
    let state = start(alloc);
    let node = TypeNode::Named {
        name: Identifier::Name(place(1), Bytes::from_slice(alloc, b"_A")?),
        member: None,
        arguments: TypeArguments::Omitted,
    };
    let name = malformed(alloc, &state, &node)?.ok_or("well formed")?;
    assert_eq!(rt; name.as_slice(), b"_A@3".as_slice());
    Ok(())
}

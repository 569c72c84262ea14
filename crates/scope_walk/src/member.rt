// What members of classes, and functions, accessors and variables of libraries, declare.
ghost use Rattle.std.specs.Prelude.{◌≡◌, [], ◌∷◌, ◌++◌, OnOk, flat_map, map};
ghost use Rattle.scope_declared.specs.Making.{has_no_parameters, is_no_list, operator_place, operator_text, owner_of, variable_role};
ghost use Rattle.scope_declared.specs.UnitDeclared.{accessor_declares, accessor_kind_declares, constructor_declares, declares_if, fields_declares, function_declares, init_declares, init_kind_declares, initializers_declares, member_declares, member_kind_declares, more_fields_declares, of_constructor, of_operator, operator_declares};
ghost use Rattle.scope_declared.specs.declared.declaration.DeclaredKind.TheVariants as k;
ghost use Rattle.scope_declared.specs.Last.{body_last};
ghost use Rattle.scope_declared.specs.TreeDeclared.{body_declares, parameters_declares};
ghost use Rattle.dart_tree.specs.Lists.{more_variables_of, parameter_list_of};
ghost use Rattle.dart_tree.specs.UnitView as uv;
ghost use Rattle.dart_tree.specs.View as view;
ghost use Rattle.scope_walk.specs.Walk.{Appends, numbering};

use crate::leaf::Walk;
use dart_base::place::Place;
use dart_token::sign::Sign;
use dart_tree::declaration::{
    Accessor, AccessorKind, Constructor, ConstructorName, Init, InitKind, Initializers, Member,
    MemberKind, Modifier, OperatorMember, OperatorName,
};
use dart_tree::parameter::{Parameter, Parameters, VariableKind};
use dart_tree::statement::{Body, Function, Variable, Variables};
use scope_declared::declaration::{Declared, DeclaredKind, Extent, Owner, Role};
use scope_declared::last::body_last;
use std::alloc::AllocError;

fn variable_role(kind: &VariableKind) -> Role
    ensures { result ≡ variable_role (view.variable_kind kind.now) }
{
    match kind {
        VariableKind::Final(_, _) | VariableKind::Const(_, _) => Role::Final,
        VariableKind::Omitted | VariableKind::Var(_) | VariableKind::Typed(_) => Role::Variable,
    }
}

fn owner_of(modifier: Modifier) -> Owner
    ensures { result ≡ owner_of modifier }
{
    match modifier {
        Modifier::Omitted => Owner::Object,
        Modifier::Static(_) | Modifier::ExternalStatic(_, _) => Owner::Class,
    }
}

fn operator_place(name: OperatorName) -> Place
    ensures { result ≡ operator_place name }
{
    match name {
        OperatorName::Sign(place, _) => place,
        OperatorName::ShiftRight(first, _) => first,
        OperatorName::Index(opening, _) => opening,
        OperatorName::IndexAssign {
            opening,
            closing: _,
            equals: _,
        } => opening,
    }
}

// The text of an operator's name.
fn operator_text(name: OperatorName, is_unary: bool) -> &'static [u8]
    ensures { result.now ≡ operator_text name is_unary }
{
    match name {
        OperatorName::Sign(_, Sign::Minus) => { if is_unary { b"unary-" } else { b"-" } }
        OperatorName::Sign(_, sign) => sign.text(),
        OperatorName::ShiftRight(_, _) => b">>",
        OperatorName::Index(_, _) => b"[]",
        OperatorName::IndexAssign {
            opening: _,
            closing: _,
            equals: _,
        } => b"[]=",
    }
}

fn is_no_list(all: &Vec<Parameter>) -> bool
    ensures { result ≡ is_no_list (parameter_list_of all.now.items) }
{
    all.is_empty()
}

fn has_no_parameters(tree: &Parameters) -> bool
    ensures { result ≡ has_no_parameters (view.parameters tree.now) }
{
    let required = is_no_list(&tree.required);
    let optional = is_no_list(&tree.optional);
    required && optional
}

fn field_kind(owner: Owner, kind: &VariableKind) -> DeclaredKind
    ensures { result ≡ k.Owned owner (variable_role (view.variable_kind kind.now)) }
{
    DeclaredKind::Owned(owner, variable_role(kind))
}

impl<'a> Walk<'a> {
    // Adds the parameters of a function, which count to the end of its body.
    fn parameters_to(
        &self,
        found: &mut Vec<Declared>,
        parameters: &Parameters,
        body: &Body,
    ) -> Result<(), AllocError>
        ensures { OnOk result (Appends found.old.items found.new.items
            (parameters_declares (numbering self.now) (body_last (view.body body.now))
            (view.parameters parameters.now))) }
    {
        self.parameters(found, body_last(body), parameters)
    }

    // Adds what stands in a function: its parameters, which count to its end, and what its body declares.
    fn callable(
        &self,
        found: &mut Vec<Declared>,
        parameters: &Parameters,
        body: &Body,
    ) -> Result<(), AllocError>
        ensures { OnOk result (Appends found.old.items found.new.items
            (parameters_declares (numbering self.now) (body_last (view.body body.now))
            (view.parameters parameters.now) ++ body_declares (numbering self.now) (view.body body.now))) }
    {
        self.parameters_to(found, parameters, body)?;
        self.body(found, body)
    }

    /// Adds a function of a library or class.
    pub(crate) fn function(
        &self,
        found: &mut Vec<Declared>,
        extent: Extent,
        owner: Owner,
        tree: &Function,
    ) -> Result<(), AllocError>
        ensures { OnOk result (Appends found.old.items found.new.items
            (function_declares (numbering self.now) extent owner (view.function tree.now))) }
    {
        let kind = DeclaredKind::Owned(owner, Role::Function);
        self.identifier(found, extent, kind, &tree.name)?;
        self.callable(found, &tree.parameters, &tree.body)
    }

    fn accessor_kind(
        &self,
        found: &mut Vec<Declared>,
        extent: Extent,
        owner: Owner,
        tree: &AccessorKind,
        body: &Body,
    ) -> Result<(), AllocError>
        ensures { OnOk result (Appends found.old.items found.new.items
            (accessor_kind_declares (numbering self.now) extent owner (body_last (view.body body.now))
            (uv.accessor_kind tree.now))) }
    {
        match tree {
            AccessorKind::Get(_, name) => {
                self.identifier(
                    found,
                    extent,
                    DeclaredKind::Owned(owner, Role::Getter),
                    name,
                )
            }
            AccessorKind::Set {
                word: _,
                name,
                parameters,
            } => {
                self.identifier(
                    found,
                    extent,
                    DeclaredKind::Owned(owner, Role::Setter),
                    name,
                )?;
                self.parameters_to(found, parameters, body)
            }
        }
    }

    /// Adds an accessor of a library or class.
    pub(crate) fn accessor(
        &self,
        found: &mut Vec<Declared>,
        extent: Extent,
        owner: Owner,
        tree: &Accessor,
    ) -> Result<(), AllocError>
        ensures { OnOk result (Appends found.old.items found.new.items
            (accessor_declares (numbering self.now) extent owner (uv.accessor tree.now))) }
    {
        self.accessor_kind(found, extent, owner, &tree.kind, &tree.body)?;
        self.body(found, &tree.body)
    }

    fn more_fields(
        &self,
        found: &mut Vec<Declared>,
        extent: Extent,
        kind: DeclaredKind,
        all: &Vec<Variable>,
    ) -> Result<(), AllocError>
        ensures { OnOk result (Appends found.old.items found.new.items
            (more_fields_declares (numbering self.now) extent kind (more_variables_of all.now.items))) }
    {
        for variable in all {
            self.identifier(found, extent, kind, &variable.name)?;
            self.value(found, &variable.value)?;
        }
        Ok(())
    }

    /// Adds variables of a library or class.
    pub(crate) fn fields(
        &self,
        found: &mut Vec<Declared>,
        extent: Extent,
        owner: Owner,
        tree: &Variables,
    ) -> Result<(), AllocError>
        ensures { OnOk result (Appends found.old.items found.new.items
            (fields_declares (numbering self.now) extent owner (view.variables tree.now))) }
    {
        let kind = field_kind(owner, &tree.kind);
        self.identifier(found, extent, kind, &tree.name)?;
        self.value(found, &tree.value)?;
        self.more_fields(found, extent, kind, &tree.more)
    }

    fn operator_name(
        &self,
        found: &mut Vec<Declared>,
        extent: Extent,
        tree: &OperatorMember,
    ) -> Result<(), AllocError>
        ensures { OnOk result (Appends found.old.items found.new.items
            (of_operator (numbering self.now) extent (uv.operator_member tree.now) ∷ [])) }
    {
        let is_unary = has_no_parameters(&tree.parameters);
        let name = self.number(operator_text(tree.name, is_unary))?;
        found.push(Declared {
            name,
            place: operator_place(tree.name),
            kind: DeclaredKind::Operator,
            extent,
        })?;
        Ok(())
    }

    fn operator(
        &self,
        found: &mut Vec<Declared>,
        extent: Extent,
        tree: &OperatorMember,
    ) -> Result<(), AllocError>
        ensures { OnOk result (Appends found.old.items found.new.items
            (operator_declares (numbering self.now) extent (uv.operator_member tree.now))) }
    {
        self.operator_name(found, extent, tree)?;
        self.callable(found, &tree.parameters, &tree.body)
    }

    fn constructor_name(
        &self,
        found: &mut Vec<Declared>,
        scope: Place,
        tree: &ConstructorName,
    ) -> Result<(), AllocError>
        ensures { OnOk result (Appends found.old.items found.new.items
            (of_constructor (numbering self.now) scope tree.now ∷ [])) }
    {
        match &tree.name {
            None => self.nowhere(found, scope, DeclaredKind::Constructor, &tree.class),
            Some(own) => self.nowhere(found, scope, DeclaredKind::NamedConstructor, &own.name),
        }
    }

    fn init_kind(&self, found: &mut Vec<Declared>, tree: &InitKind) -> Result<(), AllocError>
        ensures { OnOk result (Appends found.old.items found.new.items
            (init_kind_declares (numbering self.now) (uv.init_kind tree.now))) }
    {
        match tree {
            InitKind::Super {
                word: _,
                constructor: _,
                arguments,
            } => self.arguments(found, arguments),
            InitKind::Field {
                this_dot: _,
                name: _,
                equals: _,
                operand,
                cascades,
            } => {
                self.operand(found, operand)?;
                self.cascades(found, cascades)
            }
        }
    }

    fn inits(&self, found: &mut Vec<Declared>, all: &Vec<Init>) -> Result<(), AllocError>
        ensures { OnOk result (Appends found.old.items found.new.items
            (flat_map (init_declares (numbering self.now)) (map uv.init all.now.items))) }
    {
        for one in all {
            self.init_kind(found, &one.kind)?;
        }
        Ok(())
    }

    fn initializers(
        &self,
        found: &mut Vec<Declared>,
        tree: &Option<Initializers>,
    ) -> Result<(), AllocError>
        ensures { OnOk result (Appends found.old.items found.new.items
            (declares_if (initializers_declares (numbering self.now)) (uv.maybe uv.initializers tree.now))) }
    {
        match tree {
            None => Ok(()),
            Some(tree) => self.inits(found, &tree.items),
        }
    }

    fn constructor(
        &self,
        found: &mut Vec<Declared>,
        scope: Place,
        tree: &Constructor,
    ) -> Result<(), AllocError>
        ensures { OnOk result (Appends found.old.items found.new.items
            (constructor_declares (numbering self.now) scope (uv.constructor tree.now))) }
    {
        match tree {
            Constructor::Generative {
                constant: _,
                name,
                parameters,
                initializers,
                body,
            } => {
                self.constructor_name(found, scope, name)?;
                self.parameters_to(found, parameters, body)?;
                self.initializers(found, initializers)?;
                self.body(found, body)
            }
            Constructor::Redirecting {
                name,
                parameters,
                colon: _,
                this: _,
                constructor: _,
                arguments,
                semicolon,
            } => {
                self.constructor_name(found, scope, name)?;
                self.parameters(found, *semicolon, parameters)?;
                self.arguments(found, arguments)
            }
            Constructor::Factory {
                external: _,
                word: _,
                name,
                parameters,
                body,
            } => {
                self.constructor_name(found, scope, name)?;
                self.callable(found, parameters, body)
            }
            Constructor::RedirectingFactory {
                external: _,
                word: _,
                name,
                parameters,
                equals: _,
                class: _,
                constructor: _,
                semicolon,
            } => {
                self.constructor_name(found, scope, name)?;
                self.parameters(found, *semicolon, parameters)
            }
        }
    }

    fn member_kind(
        &self,
        found: &mut Vec<Declared>,
        extent: Extent,
        owner: Owner,
        tree: &MemberKind,
    ) -> Result<(), AllocError>
        ensures { OnOk result (Appends found.old.items found.new.items
            (member_kind_declares (numbering self.now) extent owner (uv.member_kind tree.now))) }
    {
        match tree {
            MemberKind::Constructor(made) => self.constructor(found, extent.scope, made),
            MemberKind::Function(made) => self.function(found, extent, owner, made),
            MemberKind::Accessor(made) => self.accessor(found, extent, owner, made),
            MemberKind::Variables(made) => self.fields(found, extent, owner, made),
            MemberKind::Operator(made) => self.operator(found, extent, made),
        }
    }

    fn member(
        &self,
        found: &mut Vec<Declared>,
        extent: Extent,
        tree: &Member,
    ) -> Result<(), AllocError>
        ensures { OnOk result (Appends found.old.items found.new.items
            (member_declares (numbering self.now) extent (uv.member tree.now))) }
    {
        self.member_kind(found, extent, owner_of(tree.modifier), &tree.kind)
    }

    /// Adds the members of a class.
    pub(crate) fn members(
        &self,
        found: &mut Vec<Declared>,
        extent: Extent,
        all: &Vec<Member>,
    ) -> Result<(), AllocError>
        ensures { OnOk result (Appends found.old.items found.new.items
            (flat_map (member_declares (numbering self.now) extent) (map uv.member all.now.items))) }
    {
        for one in all {
            self.member(found, extent, one)?;
        }
        Ok(())
    }
}

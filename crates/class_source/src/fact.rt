// Small facts of the definition, each about one form.
ghost use Rattle.std.specs.Prelude.{◌≡◌, [], ◌∷◌, None, map};
ghost use Rattle.dart_base.specs.declared.place.Place.{Place};
ghost use Rattle.dart_tree.specs.declared.identifier.Identifier.{Identifier};
ghost use Rattle.dart_tree.specs.declared.identifier.Identifier.TheVariants as i;
ghost use Rattle.dart_tree.specs.declared.declaration.Modifier.TheVariants as modifier;
ghost use Rattle.dart_tree.specs.Types as y;
ghost use Rattle.dart_tree.specs.Tree as t;
ghost use Rattle.dart_tree.specs.Unit as u;
ghost use Rattle.dart_ir.specs.Ty.{dynamic};
ghost use Rattle.dart_ir.specs.declared.class.Role.TheVariants.{Getter, Setter};
ghost use Rattle.translation.specs.Surroundings as m;
ghost use Rattle.translation.specs.Walk.{State};
ghost use Rattle.class_source.specs.Rows.{Member};
ghost use Rattle.class_source.specs.Headers.{header_type};
ghost use Rattle.class_source.specs.Members.{Numbers, instance_members, variable_members};

/// A static member is no instance member.
pub fn static_members_are_left_out()
    ensures { (number : Numbers) (st : State) (x : u.Member) (word : Place) →
        instance_members number st (record x { modifier = modifier.Static word }) ≡ [] }
{}

/// `final a;` is a getter alone.
pub fn final_field_is_a_getter()
    ensures { (number : Numbers) (st : State) (word semicolon : Place) (name : Identifier) (value : t.Value) →
        map (λ (x : Member). x.role) (variable_members number st
        (t.the_variables (y.final_kind word None) name value t.no_variables semicolon)) ≡ Getter ∷ [] }
{}

/// `var a, b;` is a getter and a setter for each name.
pub fn fields_are_accessors()
    ensures { (number : Numbers) (st : State) (word comma semicolon : Place) (a b : Identifier) (x z : t.Value) →
        map (λ (one : Member). one.role) (variable_members number st
        (t.the_variables (y.var_kind word) a x (t.variable comma b z t.no_variables) semicolon))
        ≡ Getter ∷ Setter ∷ Getter ∷ Setter ∷ [] }
{}

/// In a header an alias is no class.
pub fn alias_is_no_class()
    ensures { (st : State) (place : Place) →
        (header_type (record st { scopes = []; names = record st.names { meaning = λ name. m.alias 0 } })
        (y.named_type (i.Get place) None y.no_types)).of ≡ dynamic }
{}

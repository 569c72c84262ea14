// Small facts of erasure, each about one form.
ghost use Rattle.std.specs.Prelude.{◌≡◌, Option, None, Some};
ghost use Rattle.dart_base.specs.declared.place.Place.{Place};
ghost use Rattle.dart_tree.specs.declared.expression.Creation.{Creation};
ghost use Rattle.dart_tree.specs.declared.identifier.DotName.{DotName};
ghost use Rattle.dart_tree.specs.declared.identifier.Identifier.{Identifier};
ghost use Rattle.dart_tree.specs.declared.parameter.ThisDot.{ThisDot};
ghost use Rattle.dart_erase.specs.Erased as erased;
ghost use Rattle.dart_erase.specs.UnitErased as of_unit;
ghost use Rattle.dart_tree.specs.Places.{place_of};
ghost use Rattle.dart_tree.specs.Tree as t;
ghost use Rattle.dart_tree.specs.Types as y;
ghost use Rattle.dart_tree.specs.Unit as u;

/// `new A<B>()` and `const A<B>()` keep their type arguments when they are erased.
pub fn new_keeps_its_type()
    ensures { (creation : Creation) (class : y.TypeNode) (name : Option DotName)
        (given : t.Arguments) → erased.primary (t.new_object creation class name given) ≡
        t.new_object creation class name (erased.arguments given) }
{}

/// `int a(int b)` as a parameter is `a` when it is erased.
pub fn function_parameter_is_bare()
    ensures { (result_type : Option y.ResultType) (this_dot : Option ThisDot) (name : Identifier)
        (given : t.Parameters) →
        erased.parameter_kind (t.function_parameter result_type this_dot name given) ≡
        t.plain_parameter y.no_kind this_dot name }
{}

/// `int a = b;` is `var a = b;` when it is erased, `final int a = b;` is `final a = b;`, and `const int a = b;` is
/// `const a = b;`.
pub fn var_stands_for_a_type()
    ensures typed { (semicolon : Place) (name : Identifier) (of : y.TypeNode) (value : t.Value)
        (more : t.MoreVariables) →
        erased.variables (t.the_variables (y.typed_kind of) name value more semicolon) ≡
        t.the_variables (y.var_kind (place_of name)) name (erased.value value)
        (erased.more_variables more) semicolon }
    ensures final_typed { (place semicolon : Place) (name : Identifier) (of : y.TypeNode)
        (value : t.Value) (more : t.MoreVariables) →
        erased.variables (t.the_variables (y.final_kind place (Some of)) name value more semicolon) ≡
        t.the_variables (y.final_kind place None) name (erased.value value)
        (erased.more_variables more) semicolon }
    ensures const_typed { (place semicolon : Place) (name : Identifier) (of : y.TypeNode)
        (value : t.Value) (more : t.MoreVariables) →
        erased.variables (t.the_variables (y.const_kind place (Some of)) name value more semicolon) ≡
        t.the_variables (y.const_kind place None) name (erased.value value)
        (erased.more_variables more) semicolon }
{}

/// `enum A { b, c }` is as it was when it is erased.
pub fn enum_is_kept()
    ensures { (x : u.Enum) → of_unit.decl_kind (u.enum_decl x) ≡ u.enum_decl x }
{}

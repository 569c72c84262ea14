// Laws of the definition.
ghost use Rattle.std.specs.Prelude.{◌≡◌, ℕ, List, length, Option, Some, slice_get};
ghost use Rattle.dart_tree.specs.Types.{TypeNode, ResultType};
ghost use Rattle.dart_tree.specs.Tree.{Parameters};
ghost use Rattle.translation.specs.Surroundings.{Names};
ghost use Rattle.translation.specs.Types.{result_type, function_type};
ghost use Rattle.class_source.specs.Rows.{Class};
ghost use Rattle.class_source.specs.Headers.{type_in};
ghost use Rattle.class_source.specs.Source.{SourceUnit, Given, reading, unit_classes};
ghost use Rattle.class_source.specs.Resolved.{AreScoped, IsResolved};
ghost use Rattle.class_source.specs.Formed.{IsFormed, IsPlain, AreAliasesFormed, IsRowFormed};

/// Where names mean declared classes and type parameters that stand there, a type that a header or a bound names is formed.
pub fn header_types_are_formed()
    ensures { (given : Given) (names : Names) (classes n : ℕ) → AreScoped classes n names → (node : TypeNode) →
        IsFormed given.tables classes n (type_in (reading given names) node) }
{}

/// No function type stands in a type that a header or a bound names.
pub fn header_types_are_plain()
    ensures { (given : Given) (names : Names) (node : TypeNode) → IsPlain (type_in (reading given names) node) }
{}

/// Where names mean declared classes and type parameters that stand there, and what aliases stand for is formed, a signature is
/// formed.
pub fn signatures_are_formed()
    ensures { (given : Given) (names : Names) (classes n : ℕ) → AreScoped classes n names
        → AreAliasesFormed given.tables classes n → (result : Option ResultType) (x : Parameters) →
        IsFormed given.tables classes n
        (function_type (reading given names) (result_type (reading given names) result) x) }
{}

/// Where what is handed in fits the units, the types of each class are formed, and no function type stands in a header.
pub fn rows_are_formed()
    ensures { (given : Given) (units : List SourceUnit) → IsResolved given units → (n : ℕ) (c : Class)
        → slice_get (unit_classes given 0 units) n ≡ Some c
        → IsRowFormed given.tables (length (unit_classes given 0 units)) c }
{}

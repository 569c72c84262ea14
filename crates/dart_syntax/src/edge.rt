// What the body behind `=>` of a function literal takes, and what it leaves, where an operator, an index or a call follows.

ghost use Rattle.std.specs.Prelude.{◌≡◌, Bool, true, false, None};
ghost use Rattle.dart_base.specs.declared.place.Place.{Place};
ghost use Rattle.dart_token.specs.declared.sign.Sign.TheVariants as s;
ghost use Rattle.dart_tree.specs.declared.identifier.Identifier.{Identifier};
ghost use Rattle.dart_tree.specs.declared.operator.Operator.{Operator};
ghost use Rattle.dart_tree.specs.declared.operator.Operator.TheVariants as o;
ghost use Rattle.dart_tree.specs.declared.expression.Atom.{Atom};
ghost use Rattle.dart_tree.specs.Types.{named_type, no_types};
ghost use Rattle.dart_tree.specs.Tree as t;
ghost use Rattle.dart_tree.specs.Tree.{Operand, Parameters};
ghost use Rattle.dart_syntax.specs.Edges.{equals, leaves, leaves_less, opens_nothing, primary_leaves, arrow_literal};

/// In `(q) => x is A < b` the `<` opens arguments of the type, and does not compare the function (ECMA-408, 16.34 Type
/// Test and 16.24 Relational Expressions).
#[tactic(auto, unfolding(crate::specs::Edges::expr_takes))]
pub fn less_opens_arguments()
    ensures { (parameters : Parameters) (arrow word : Place) (x : Operand) (name : Identifier) → leaves_less (t.primary (arrow_literal parameters arrow (t.is_type x word None (named_type name None no_types)))) ≡ false }
{}

/// In `(q) => ++f()` the call belongs to what `++` stands before, and does not call the function (ECMA-408, 16.29 Unary
/// Expressions).
#[tactic(auto, unfolding(crate::specs::Edges::expr_takes))]
pub fn call_belongs_to_target()
    ensures { (parameters : Parameters) (arrow : Place) (operator : Operator) (name : Atom) → primary_leaves opens_nothing (arrow_literal parameters arrow (t.prefix operator (t.primary (t.atom name)))) ≡ false }
{}

/// In `(a) => b == c == d` the second `==` compares the function, since the equality in its body is spent (ECMA-408, 16.23
/// Equality).
#[tactic(auto, unfolding(crate::specs::Edges::expr_takes))]
pub fn equality_compares_function()
    ensures { (parameters : Parameters) (arrow place : Place) (x : Operand) (name : Atom) → leaves equals (t.primary (arrow_literal parameters arrow (t.binary x (t.tail (o.Sign place s.EqualEqual) (t.primary (t.atom name)) t.no_tails)))) ≡ true }
{}

// Types and clauses of declarations, by the readers of what has at most so many nodes above one another.
ghost use Rattle.dart_token.specs.declared.word.Word.TheVariants as w;
ghost use Rattle.dart_tree.specs.Depth as height;
ghost use Rattle.dart_tree.specs.Depth.{height_if};
ghost use Rattle.dart_tree.specs.UnitView as view;
ghost use Rattle.dart_tree.specs.UnitView.{maybe};
ghost use Rattle.dart_tree.specs.View.{type_node as view_type, result_type as view_result};
ghost use Rattle.grammar_laws.specs.Readers.{option};
ghost use Rattle.parse_nest.specs.Stages.{exprs_at};
ghost use Rattle.parse_type.specs.Views.{one_result_height};
ghost use Rattle.syntax_readers.specs.Declarations as spec;
ghost use Rattle.syntax_readers.specs.Types as types;
ghost use Rattle.token_codes.specs.Codes.{class_of, this_word};
ghost use Rattle.token_cursor.specs.Gives.{GivesHigh};

use dart_tree::declaration::{Bound, Superclass, TypeClause};
use dart_tree::types::{ResultType, TypeNode};
use parse_head::clause;
use parse_type::{kind, types};
use std::alloc::Global;
use token_cursor::cursor::Cursor;
use token_cursor::error::ReadFault;

/// Reads a type (ECMA-408, 19.1 Static Types).
pub fn type_node(
    alloc: Global,
    cursor: &mut Cursor<'_>,
    depth: usize,
) -> Result<(TypeNode, usize), ReadFault>
    ensures { GivesHigh view_type height.type_height depth ((exprs_at depth).type cursor.old) result cursor.new }
{
    types::type_node(alloc, cursor, depth)
}

/// Reads what a function answers with (ECMA-408, 9 Functions).
pub fn result_type(
    alloc: Global,
    cursor: &mut Cursor<'_>,
    depth: usize,
) -> Result<(ResultType, usize), ReadFault>
    ensures { GivesHigh view_result one_result_height depth
        (types.result (exprs_at depth).type cursor.old) result cursor.new }
{
    kind::result_type(alloc, cursor, depth)
}

/// Reads the bound of a type parameter, or none (ECMA-408, 14 Generics).
pub fn maybe_bound(
    alloc: Global,
    cursor: &mut Cursor<'_>,
    depth: usize,
) -> Result<(Option<Bound>, usize), ReadFault>
    ensures { GivesHigh (maybe view.bound) (height_if height.bound_height) depth
        (option class_of (this_word w.Extends) (spec.bound (exprs_at depth).type) cursor.old) result cursor.new }
{
    clause::maybe_bound(alloc, cursor, depth)
}

/// Reads the superclass of a class with its mixins, or none (ECMA-408, 10.9 Superclasses).
pub fn maybe_superclass(
    alloc: Global,
    cursor: &mut Cursor<'_>,
    depth: usize,
) -> Result<(Option<Superclass>, usize), ReadFault>
    ensures { GivesHigh (maybe view.superclass) (height_if height.superclass_height) depth
        (option class_of (this_word w.Extends) (spec.superclass (exprs_at depth).type) cursor.old) result cursor.new }
{
    clause::maybe_superclass(alloc, cursor, depth)
}

/// Reads the mixins of a class (ECMA-408, 10.9 Superclasses).
pub fn mixins(
    alloc: Global,
    cursor: &mut Cursor<'_>,
    depth: usize,
) -> Result<(TypeClause, usize), ReadFault>
    ensures { GivesHigh view.type_clause height.clause_height depth
        (spec.mixins (exprs_at depth).type cursor.old) result cursor.new }
{
    clause::mixins(alloc, cursor, depth)
}

/// Reads the interfaces of a class, or none (ECMA-408, 10.10 Superinterfaces).
pub fn maybe_interfaces(
    alloc: Global,
    cursor: &mut Cursor<'_>,
    depth: usize,
) -> Result<(Option<TypeClause>, usize), ReadFault>
    ensures { GivesHigh (maybe view.type_clause) (height_if height.clause_height) depth
        (option class_of (this_word w.Implements) (spec.interfaces (exprs_at depth).type) cursor.old) result cursor.new }
{
    clause::maybe_interfaces(alloc, cursor, depth)
}

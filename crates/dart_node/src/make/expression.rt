// Expressions, their parts, types and parameters from their parts.
ghost use Rattle.std.specs.Prelude.{◌≡◌, IfOk};
ghost use Rattle.dart_tree.specs.Lists.{cascades_of, entries_of, items_of, metadata_of};
ghost use Rattle.dart_tree.specs.Lists.{parameter_list_of, pieces_of, selectors_of, tails_of, type_list_of};
ghost use Rattle.dart_tree.specs.Tree as t;
ghost use Rattle.dart_tree.specs.Types as y;
ghost use Rattle.dart_tree.specs.View as view;

use dart_base::place::Place;
use dart_tree::expression::{
    Arguments, Cascade, Creation, Entry, Expr, Item, Operand, Primary, Selector, StringPiece, Tail,
    Value,
};
use dart_tree::identifier::{DotName, Identifier};
use dart_tree::operator::Operator;
use dart_tree::parameter::{
    Annotation, Brackets, Parameter, ParameterKind, Parameters, Parentheses, ThisDot,
};
use dart_tree::statement::Body;
use dart_tree::types::{ResultType, TypeArgument, TypeArguments, TypeNode};
use std::alloc::{AllocError, Global};

/// `a` or `a..b = c..d()` (ECMA-408, 16.17.2 Cascaded Invocations).
pub fn plain(operand: Operand, cascades: Vec<Cascade>) -> Expr
    ensures { view.expr result ≡ t.plain (view.operand operand) (cascades_of cascades.items) }
{
    Expr::Plain(operand, cascades)
}

/// `a = b` or `a += b` (ECMA-408, 16.19 Assignment).
pub fn assign(
    alloc: Global,
    target: Operand,
    operator: Operator,
    value: Expr,
) -> Result<Expr, AllocError>
    ensures { IfOk result (λ x. view.expr x ≡
        t.assign (view.operand target) operator (view.expr value)) }
{
    let value = Box::new(alloc, value)?;
    Ok(Expr::Assign {
        target,
        operator,
        value,
    })
}

/// `throw a` (ECMA-408, 16.9 Throw).
pub fn throw(alloc: Global, word: Place, value: Expr) -> Result<Expr, AllocError>
    ensures { IfOk result (λ x. view.expr x ≡ t.throw word (view.expr value)) }
{
    let value = Box::new(alloc, value)?;
    Ok(Expr::Throw(word, value))
}

/// `a ? b : c` (ECMA-408, 16.20 Conditional).
pub fn conditional(
    alloc: Global,
    condition: Operand,
    question: Place,
    first: Expr,
    colon: Place,
    second: Expr,
) -> Result<Operand, AllocError>
    ensures { IfOk result (λ x. view.operand x ≡
        t.conditional (view.operand condition) question (view.expr first) colon
        (view.expr second)) }
{
    let condition = Box::new(alloc, condition)?;
    let first = Box::new(alloc, first)?;
    let second = Box::new(alloc, second)?;
    Ok(Operand::Conditional {
        condition,
        question,
        first,
        colon,
        second,
    })
}

/// `a + b - c` (ECMA-408, 16.22 to 16.28).
pub fn binary(alloc: Global, first: Operand, more: Vec<Tail>) -> Result<Operand, AllocError>
    ensures { IfOk result (λ x. view.operand x ≡
        t.binary (view.operand first) (tails_of more.items)) }
{
    let first = Box::new(alloc, first)?;
    Ok(Operand::Binary(first, more))
}

/// `a is T` or `a is! T` (ECMA-408, 16.34 Type Test).
pub fn is_type(
    alloc: Global,
    operand: Operand,
    word: Place,
    bang: Option<Place>,
    type_node: TypeNode,
) -> Result<Operand, AllocError>
    ensures { IfOk result (λ x. view.operand x ≡
        t.is_type (view.operand operand) word bang (view.type_node type_node)) }
{
    let operand = Box::new(alloc, operand)?;
    let type_node = Box::new(alloc, type_node)?;
    Ok(Operand::Is {
        operand,
        word,
        bang,
        type_node,
    })
}

/// `a as T` (ECMA-408, 16.35 Type Cast).
pub fn as_type(
    alloc: Global,
    operand: Operand,
    word: Place,
    type_node: TypeNode,
) -> Result<Operand, AllocError>
    ensures { IfOk result (λ x. view.operand x ≡
        t.as_type (view.operand operand) word (view.type_node type_node)) }
{
    let operand = Box::new(alloc, operand)?;
    let type_node = Box::new(alloc, type_node)?;
    Ok(Operand::As {
        operand,
        word,
        type_node,
    })
}

/// `-a`, `++a` and the like (ECMA-408, 16.29 Unary Expressions).
pub fn prefix(alloc: Global, operator: Operator, operand: Operand) -> Result<Operand, AllocError>
    ensures { IfOk result (λ x. view.operand x ≡ t.prefix operator (view.operand operand)) }
{
    let operand = Box::new(alloc, operand)?;
    Ok(Operand::Prefix(operator, operand))
}

/// `a.b[c](d)`, `a++` or `a.b--` (ECMA-408, 16.31 Postfix Expressions).
pub fn postfix(
    alloc: Global,
    primary: Primary,
    selectors: Vec<Selector>,
    operator: Option<Operator>,
) -> Result<Operand, AllocError>
    ensures { IfOk result (λ x. view.operand x ≡
        t.postfix (view.primary primary) (selectors_of selectors.items) operator) }
{
    let primary = Box::new(alloc, primary)?;
    Ok(Operand::Postfix {
        primary,
        selectors,
        operator,
    })
}

/// `super.a` and the like (ECMA-408, 16.17.3 Super Invocation).
pub fn super_access(alloc: Global, word: Place, selector: Selector) -> Result<Primary, AllocError>
    ensures { IfOk result (λ x. view.primary x ≡ t.super_access word (view.selector selector)) }
{
    let selector = Box::new(alloc, selector)?;
    Ok(Primary::Super(word, selector))
}

/// `'a' 'b$c ${d} e'` (ECMA-408, 16.5 Strings).
pub fn text(pieces: Vec<StringPiece>) -> Primary
    ensures { view.primary result ≡ t.text (pieces_of pieces.items) }
{
    Primary::Text(pieces)
}

/// `<A>[a, b]` (ECMA-408, 16.7 Lists).
pub fn list_literal(
    alloc: Global,
    type_arguments: TypeArguments,
    opening: Place,
    items: Vec<Item>,
    comma: Option<Place>,
    closing: Place,
) -> Result<Primary, AllocError>
    ensures { IfOk result (λ x. view.primary x ≡
        t.list_literal (view.type_arguments type_arguments) opening
        (items_of items.items) comma closing) }
{
    let type_arguments = Box::new(alloc, type_arguments)?;
    Ok(Primary::List {
        type_arguments,
        opening,
        items,
        comma,
        closing,
    })
}

/// `<A, B>{a: b, c: d}` (ECMA-408, 16.8 Maps).
pub fn map_literal(
    alloc: Global,
    type_arguments: TypeArguments,
    opening: Place,
    entries: Vec<Entry>,
    comma: Option<Place>,
    closing: Place,
) -> Result<Primary, AllocError>
    ensures { IfOk result (λ x. view.primary x ≡
        t.map_literal (view.type_arguments type_arguments) opening
        (entries_of entries.items) comma closing) }
{
    let type_arguments = Box::new(alloc, type_arguments)?;
    Ok(Primary::Map {
        type_arguments,
        opening,
        entries,
        comma,
        closing,
    })
}

/// `new A.b(c)` or `const A.b(c)` (ECMA-408, 16.12 Instance Creation).
pub fn new_object(
    alloc: Global,
    creation: Creation,
    class: TypeNode,
    constructor: Option<DotName>,
    arguments: Arguments,
) -> Result<Primary, AllocError>
    ensures { IfOk result (λ x. view.primary x ≡
        t.new_object creation (view.type_node class) constructor (view.arguments arguments)) }
{
    let class = Box::new(alloc, class)?;
    let constructor = Box::new(alloc, constructor)?;
    let arguments = Box::new(alloc, arguments)?;
    Ok(Primary::New {
        creation,
        class,
        constructor,
        arguments,
    })
}

/// `(a) => b` or `(a) { b; }` (ECMA-408, 16.10 Function Expressions).
pub fn function_literal(
    alloc: Global,
    parameters: Parameters,
    body: Body,
) -> Result<Primary, AllocError>
    ensures { IfOk result (λ x. view.primary x ≡
        t.function_literal (view.parameters parameters) (view.body body)) }
{
    let parameters = Box::new(alloc, parameters)?;
    Ok(Primary::Function(parameters, body))
}

/// `(a)` (ECMA-408, 16 Expressions).
pub fn parenthesized(
    alloc: Global,
    opening: Place,
    value: Expr,
    closing: Place,
) -> Result<Primary, AllocError>
    ensures { IfOk result (λ x. view.primary x ≡
        t.parenthesized opening (view.expr value) closing) }
{
    let value = Box::new(alloc, value)?;
    Ok(Primary::Parenthesized {
        opening,
        value,
        closing,
    })
}

/// `[a]` (ECMA-408, 16.32 Assignable Expressions).
pub fn index(
    alloc: Global,
    opening: Place,
    value: Expr,
    closing: Place,
) -> Result<Selector, AllocError>
    ensures { IfOk result (λ x. view.selector x ≡ t.index opening (view.expr value) closing) }
{
    let value = Box::new(alloc, value)?;
    Ok(Selector::Index {
        opening,
        value,
        closing,
    })
}

/// `(a, b: c)` (ECMA-408, 16.14.1 Actual Argument List Evaluation).
pub fn arguments(opening: Place, items: Vec<Item>, closing: Place) -> Arguments
    ensures { view.arguments result ≡ t.the_arguments opening (items_of items.items) closing }
{
    Arguments {
        opening,
        items,
        closing,
    }
}

/// `a` or `= a` (ECMA-408, 8 Variables and 16.19 Assignment).
pub fn given(alloc: Global, operator: Option<Operator>, value: Expr) -> Result<Value, AllocError>
    ensures { IfOk result (λ x. view.value x ≡ t.given operator (view.expr value)) }
{
    let value = Box::new(alloc, value)?;
    Ok(Value::Given(operator, value))
}

/// `<A, B>` (ECMA-408, 14 Generics).
pub fn listed_types(opening: Place, arguments: Vec<TypeArgument>, closing: Place) -> TypeArguments
    ensures { view.type_arguments result ≡
        y.listed_types opening (type_list_of arguments.items) closing }
{
    TypeArguments::Listed {
        opening,
        arguments,
        closing,
    }
}

/// `(a, int b, [c = 1])` (ECMA-408, 9.2 Formal Parameters).
pub fn parameters(
    opening: Place,
    required: Vec<Parameter>,
    brackets: Option<Brackets>,
    optional: Vec<Parameter>,
    closing: Place,
) -> Parameters
    ensures { view.parameters result ≡
        t.the_parameters opening (parameter_list_of required.items) brackets
        (parameter_list_of optional.items) closing }
{
    Parameters {
        opening,
        required,
        brackets,
        optional,
        closing,
    }
}

/// `int a(b)`, a parameter that is a function (ECMA-408, 9.2.1 Required Formals).
pub fn function_parameter(
    alloc: Global,
    result_type: Option<ResultType>,
    this_dot: Option<ThisDot>,
    name: Identifier,
    parameters: Parameters,
) -> Result<ParameterKind, AllocError>
    ensures { IfOk result (λ x. view.parameter_kind x ≡
        t.function_parameter (view.result_option result_type) this_dot name
        (view.parameters parameters)) }
{
    let parameters = Box::new(alloc, parameters)?;
    Ok(ParameterKind::Function {
        result_type,
        this_dot,
        name,
        parameters,
    })
}

/// `@a int b = 1`, with the comma before it (ECMA-408, 9.2 Formal Parameters).
pub fn parameter(
    comma: Option<Place>,
    metadata: Vec<Annotation>,
    kind: ParameterKind,
    value: Value,
) -> Parameter
    ensures { view.parameter result ≡
        t.the_parameter comma (metadata_of metadata.items) (view.parameter_kind kind)
        (view.value value) }
{
    Parameter {
        comma,
        metadata,
        kind,
        value,
    }
}

/// `@a.b(c)` (ECMA-408, 15 Metadata).
pub fn annotation(
    at: Place,
    name: Identifier,
    more: Vec<DotName>,
    call: Option<Parentheses>,
    items: Vec<Item>,
) -> Annotation
    ensures { view.annotation result ≡
        t.the_annotation at name more.items call (items_of items.items) }
{
    Annotation {
        at,
        name,
        more,
        call,
        items,
    }
}

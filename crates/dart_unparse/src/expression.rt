// The tokens of expressions, arguments, parameters and annotations.
ghost use Rattle.std.specs.Prelude.{[], ◌∷◌, ◌++◌, OnOk};
ghost use Rattle.dart_token.specs.declared.sign.Sign.TheVariants as sg;
ghost use Rattle.dart_tree.specs.LeafTokens.{sign_at};
ghost use Rattle.dart_tree.specs.Tokens.{annotation_tokens, arguments_tokens, expr_tokens};
ghost use Rattle.dart_tree.specs.Tokens.{operand_tokens, parameter_kind_tokens, parameter_tokens};
ghost use Rattle.dart_tree.specs.Tokens.{parameters_tokens, primary_tokens, selector_tokens};
ghost use Rattle.dart_tree.specs.Tokens.{value_tokens};
ghost use Rattle.dart_tree.specs.View as view;
ghost use Rattle.dart_unparse.specs.Writer.{Appends};

use crate::leaf::Writer;
use dart_base::place::Place;
use dart_token::sign::Sign;
use dart_token::word::Word;
use dart_tree::expression::{Arguments, Expr, Operand, Primary, Selector, Value};
use dart_tree::parameter::{Annotation, Parameter, ParameterKind, Parameters};
use std::alloc::AllocError;

impl Writer {
    #[cycle(write)]
    pub(crate) fn expr(&mut self, tree: &Expr) -> Result<(), AllocError>
        ensures { OnOk result (Appends self.old self.new (expr_tokens (view.expr tree.now))) }
    {
        match tree {
            Expr::Assign {
                target,
                operator,
                value,
            } => {
                self.operand(target)?;
                self.operator(*operator)?;
                self.expr(value)
            }
            Expr::Plain(operand, cascades) => {
                self.operand(operand)?;
                self.cascades(cascades)
            }
            Expr::Throw(word, value) => {
                self.word(*word, Word::Throw)?;
                self.expr(value)
            }
        }
    }

    #[cycle(write)]
    pub(crate) fn operand(&mut self, tree: &Operand) -> Result<(), AllocError>
        ensures { OnOk result (Appends self.old self.new (operand_tokens (view.operand tree.now))) }
    {
        match tree {
            Operand::Conditional {
                condition,
                question,
                first,
                colon,
                second,
            } => {
                self.operand(condition)?;
                self.sign(*question, Sign::Question)?;
                self.expr(first)?;
                self.sign(*colon, Sign::Colon)?;
                self.expr(second)
            }
            Operand::Binary(first, more) => {
                self.operand(first)?;
                self.tails(more)
            }
            Operand::Is {
                operand,
                word,
                bang,
                type_node,
            } => {
                self.operand(operand)?;
                self.word(*word, Word::Is)?;
                self.maybe_sign(*bang, Sign::Bang)?;
                self.type_node(type_node)
            }
            Operand::As {
                operand,
                word,
                type_node,
            } => {
                self.operand(operand)?;
                self.word(*word, Word::As)?;
                self.type_node(type_node)
            }
            Operand::Prefix(operator, operand) => {
                self.operator(*operator)?;
                self.operand(operand)
            }
            Operand::Postfix {
                primary,
                selectors,
                operator,
            } => {
                self.primary(primary)?;
                self.selectors(selectors)?;
                self.maybe_operator(*operator)
            }
            Operand::Primary(primary) => self.primary(primary),
        }
    }

    #[cycle(write)]
    pub(crate) fn primary(&mut self, tree: &Primary) -> Result<(), AllocError>
        ensures { OnOk result (Appends self.old self.new (primary_tokens (view.primary tree.now))) }
    {
        match tree {
            Primary::Super(word, selector) => {
                self.word(*word, Word::Super)?;
                self.selector(selector)
            }
            Primary::BareSuper(word) => self.word(*word, Word::Super),
            Primary::Atom(atom) => self.atom(atom),
            Primary::Text(pieces) => self.pieces(pieces),
            Primary::List {
                type_arguments,
                opening,
                items,
                comma,
                closing,
            } => {
                self.type_arguments(type_arguments)?;
                self.sign(*opening, Sign::LeftBracket)?;
                self.items(items)?;
                self.maybe_sign(*comma, Sign::Comma)?;
                self.sign(*closing, Sign::RightBracket)
            }
            Primary::Map {
                type_arguments,
                opening,
                entries,
                comma,
                closing,
            } => {
                self.type_arguments(type_arguments)?;
                self.sign(*opening, Sign::LeftBrace)?;
                self.entries(entries)?;
                self.maybe_sign(*comma, Sign::Comma)?;
                self.sign(*closing, Sign::RightBrace)
            }
            Primary::New {
                creation,
                class,
                constructor,
                arguments,
            } => {
                self.creation(*creation)?;
                self.type_node(class)?;
                self.maybe_dot_name(constructor)?;
                self.arguments(arguments)
            }
            Primary::Function(parameters, body) => {
                self.parameters(parameters)?;
                self.body(body)
            }
            Primary::Parenthesized {
                opening,
                value,
                closing,
            } => self.parenthesized(*opening, value, *closing),
        }
    }

    #[cycle(write)]
    pub(crate) fn parenthesized(
        &mut self,
        opening: Place,
        value: &Expr,
        closing: Place,
    ) -> Result<(), AllocError>
        ensures { OnOk result (Appends self.old self.new (sign_at opening sg.LeftParenthesis ∷
            (expr_tokens (view.expr value.now) ++ sign_at closing sg.RightParenthesis ∷ []))) }
    {
        self.sign(opening, Sign::LeftParenthesis)?;
        self.expr(value)?;
        self.sign(closing, Sign::RightParenthesis)
    }

    #[cycle(write)]
    pub(crate) fn selector(&mut self, tree: &Selector) -> Result<(), AllocError>
        ensures { OnOk result (Appends self.old self.new (selector_tokens (view.selector tree.now))) }
    {
        match tree {
            Selector::Member(dot, name) => {
                self.maybe_sign(*dot, Sign::Dot)?;
                self.identifier(name)
            }
            Selector::Index {
                opening,
                value,
                closing,
            } => {
                self.sign(*opening, Sign::LeftBracket)?;
                self.expr(value)?;
                self.sign(*closing, Sign::RightBracket)
            }
            Selector::Call(arguments) => self.arguments(arguments),
        }
    }

    #[cycle(write)]
    pub(crate) fn value(&mut self, tree: &Value) -> Result<(), AllocError>
        ensures { OnOk result (Appends self.old self.new (value_tokens (view.value tree.now))) }
    {
        match tree {
            Value::Omitted => Ok(()),
            Value::Given(operator, value) => {
                self.maybe_operator(*operator)?;
                self.expr(value)
            }
        }
    }

    #[cycle(write)]
    pub(crate) fn arguments(&mut self, tree: &Arguments) -> Result<(), AllocError>
        ensures { OnOk result (Appends self.old self.new (arguments_tokens (view.arguments tree.now))) }
    {
        self.sign(tree.opening, Sign::LeftParenthesis)?;
        self.items(&tree.items)?;
        self.sign(tree.closing, Sign::RightParenthesis)
    }

    #[cycle(write)]
    pub(crate) fn parameters(&mut self, tree: &Parameters) -> Result<(), AllocError>
        ensures { OnOk result (Appends self.old self.new (parameters_tokens (view.parameters tree.now))) }
    {
        self.sign(tree.opening, Sign::LeftParenthesis)?;
        self.parameter_list(&tree.required)?;
        self.opening_bracket(tree.brackets)?;
        self.parameter_list(&tree.optional)?;
        self.closing_bracket(tree.brackets)?;
        self.sign(tree.closing, Sign::RightParenthesis)
    }

    #[cycle(write)]
    pub(crate) fn parameter(&mut self, tree: &Parameter) -> Result<(), AllocError>
        ensures { OnOk result (Appends self.old self.new (parameter_tokens (view.parameter tree.now))) }
    {
        self.maybe_sign(tree.comma, Sign::Comma)?;
        self.metadata(&tree.metadata)?;
        self.parameter_kind(&tree.kind)?;
        self.value(&tree.value)
    }

    #[cycle(write)]
    pub(crate) fn parameter_kind(&mut self, tree: &ParameterKind) -> Result<(), AllocError>
        ensures { OnOk result (Appends self.old self.new
            (parameter_kind_tokens (view.parameter_kind tree.now))) }
    {
        match tree {
            ParameterKind::Plain {
                kind,
                this_dot,
                name,
            } => {
                self.variable_kind(kind)?;
                self.maybe_this(*this_dot)?;
                self.identifier(name)
            }
            ParameterKind::Function {
                result_type,
                this_dot,
                name,
                parameters,
            } => {
                self.maybe_result(result_type)?;
                self.maybe_this(*this_dot)?;
                self.identifier(name)?;
                self.parameters(parameters)
            }
        }
    }

    #[cycle(write)]
    pub(crate) fn annotation(&mut self, tree: &Annotation) -> Result<(), AllocError>
        ensures { OnOk result (Appends self.old self.new (annotation_tokens (view.annotation tree.now))) }
    {
        self.sign(tree.at, Sign::AtSign)?;
        self.identifier(&tree.name)?;
        self.dot_names(&tree.more)?;
        self.opening_parenthesis(tree.call)?;
        self.items(&tree.items)?;
        self.closing_parenthesis(tree.call)
    }
}

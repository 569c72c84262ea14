// The tokens of the parts of trees that hold no expression.
ghost use Rattle.std.specs.Prelude.{[], ◌∷◌, OnOk};
ghost use Rattle.dart_tree.specs.LeafTokens.{sign_at, word_at, maybe_sign, maybe_word};
ghost use Rattle.dart_tree.specs.LeafTokens.{identifier_tokens, dot_name_tokens, maybe_dot_name};
ghost use Rattle.dart_tree.specs.LeafTokens.{dot_names_tokens, label_tokens, maybe_label};
ghost use Rattle.dart_tree.specs.LeafTokens.{labels_tokens, operator_tokens, maybe_operator};
ghost use Rattle.dart_tree.specs.LeafTokens.{atom_tokens, creation_token, piece_token, maybe_this};
ghost use Rattle.dart_tree.specs.LeafTokens.{opening_bracket, closing_bracket};
ghost use Rattle.dart_tree.specs.LeafTokens.{opening_parenthesis, closing_parenthesis};
ghost use Rattle.dart_tree.specs.LeafTokens.{jump_tokens, maybe_identifier, catch_tokens};
ghost use Rattle.dart_tree.specs.LeafTokens.{maybe_catch, type_tokens, type_arguments_tokens};
ghost use Rattle.dart_tree.specs.LeafTokens.{type_list_tokens, maybe_type};
ghost use Rattle.dart_tree.specs.LeafTokens.{maybe_result, kind_tokens, try_kind_tokens};
ghost use Rattle.dart_tree.specs.LeafTokens.{trace_tokens};
ghost use Rattle.dart_tree.specs.Lists.{type_list_of};
ghost use Rattle.dart_tree.specs.UnitTokens.{contextual};
ghost use Rattle.dart_tree.specs.View as view;
ghost use Rattle.dart_unparse.specs.Writer.{Appends};

use dart_base::bytes::Bytes;
use dart_base::place::Place;
use dart_token::sign::Sign;
use dart_token::token::{Token, TokenKind};
use dart_token::word::Word;
use dart_tree::expression::{Atom, Creation, PieceKind};
use dart_tree::identifier::{CommaName, DotName, Identifier, Label};
use dart_tree::operator::Operator;
use dart_tree::parameter::{BracketKind, Brackets, Parentheses, ThisDot, VariableKind};
use dart_tree::statement::{Catch, Jump, TryKind};
use dart_tree::types::{ResultType, TypeArgument, TypeArguments, TypeNode};
use std::alloc::{AllocError, Global};

/// The tokens written so far.
#[derive(Drop)]
pub(crate) struct Writer {
    pub(crate) alloc: Global,
    pub(crate) tokens: Vec<Token>,
}

impl Writer {
    fn push(&mut self, kind: TokenKind, place: Place, lexeme: &[u8]) -> Result<(), AllocError>
        ensures { OnOk result (Appends self.old self.new
            (record { kind = kind; place = place; lexeme = lexeme.now } ∷ [])) }
    {
        let lexeme = Bytes::from_slice(self.alloc, lexeme)?;
        self.tokens.push(Token {
            kind,
            place,
            lexeme,
        })?;
        Ok(())
    }

    pub(crate) fn contextual(&mut self, place: Place, text: &[u8]) -> Result<(), AllocError>
        ensures { OnOk result (Appends self.old self.new (contextual place text.now ∷ [])) }
    {
        self.push(TokenKind::Identifier, place, text)
    }

    pub(crate) fn sign(&mut self, place: Place, sign: Sign) -> Result<(), AllocError>
        ensures { OnOk result (Appends self.old self.new (sign_at place sign ∷ [])) }
    {
        self.push(TokenKind::Sign(sign), place, sign.text())
    }

    pub(crate) fn word(&mut self, place: Place, word: Word) -> Result<(), AllocError>
        ensures { OnOk result (Appends self.old self.new (word_at place word ∷ [])) }
    {
        self.push(TokenKind::Word(word), place, word.text())
    }

    pub(crate) fn identifier(&mut self, name: &Identifier) -> Result<(), AllocError>
        ensures { OnOk result (Appends self.old self.new (identifier_tokens name.now)) }
    {
        match name {
            Identifier::Name(place, text) => self.push(
                TokenKind::Identifier,
                *place,
                text.as_slice(),
            ),
            Identifier::Get(place) => self.word(*place, Word::Get),
            Identifier::Set(place) => self.word(*place, Word::Set),
        }
    }

    pub(crate) fn dot_name(&mut self, name: &DotName) -> Result<(), AllocError>
        ensures { OnOk result (Appends self.old self.new (dot_name_tokens name.now)) }
    {
        self.sign(name.dot, Sign::Dot)?;
        self.identifier(&name.name)
    }

    pub(crate) fn dot_names(&mut self, names: &Vec<DotName>) -> Result<(), AllocError>
        ensures { OnOk result (Appends self.old self.new (dot_names_tokens names.now.items)) }
    {
        for name in names {
            self.dot_name(name)?;
        }
        Ok(())
    }

    pub(crate) fn maybe_sign(&mut self, place: Option<Place>, sign: Sign) -> Result<(), AllocError>
        ensures { OnOk result (Appends self.old self.new (maybe_sign place sign)) }
    {
        match place {
            None => Ok(()),
            Some(place) => self.sign(place, sign),
        }
    }

    pub(crate) fn maybe_word(&mut self, place: Option<Place>, word: Word) -> Result<(), AllocError>
        ensures { OnOk result (Appends self.old self.new (maybe_word place word)) }
    {
        match place {
            None => Ok(()),
            Some(place) => self.word(place, word),
        }
    }

    pub(crate) fn maybe_identifier(&mut self, name: &Option<Identifier>) -> Result<(), AllocError>
        ensures { OnOk result (Appends self.old self.new (maybe_identifier name.now)) }
    {
        match name {
            None => Ok(()),
            Some(name) => self.identifier(name),
        }
    }

    pub(crate) fn maybe_dot_name(&mut self, name: &Option<DotName>) -> Result<(), AllocError>
        ensures { OnOk result (Appends self.old self.new (maybe_dot_name name.now)) }
    {
        match name {
            None => Ok(()),
            Some(name) => self.dot_name(name),
        }
    }

    pub(crate) fn label(&mut self, label: &Label) -> Result<(), AllocError>
        ensures { OnOk result (Appends self.old self.new (label_tokens label.now)) }
    {
        self.identifier(&label.name)?;
        self.sign(label.colon, Sign::Colon)
    }

    pub(crate) fn maybe_label(&mut self, label: &Option<Label>) -> Result<(), AllocError>
        ensures { OnOk result (Appends self.old self.new (maybe_label label.now)) }
    {
        match label {
            None => Ok(()),
            Some(label) => self.label(label),
        }
    }

    pub(crate) fn labels(&mut self, labels: &Vec<Label>) -> Result<(), AllocError>
        ensures { OnOk result (Appends self.old self.new (labels_tokens labels.now.items)) }
    {
        for label in labels {
            self.label(label)?;
        }
        Ok(())
    }

    pub(crate) fn operator(&mut self, operator: Operator) -> Result<(), AllocError>
        ensures { OnOk result (Appends self.old self.new (operator_tokens operator)) }
    {
        match operator {
            Operator::Sign(place, sign) => self.sign(place, sign),
            Operator::ShiftRight(first, second) => {
                self.sign(first, Sign::Greater)?;
                self.sign(second, Sign::Greater)
            }
            Operator::ShiftRightAssign(first, second) => {
                self.sign(first, Sign::Greater)?;
                self.sign(second, Sign::GreaterEqual)
            }
        }
    }

    pub(crate) fn maybe_operator(&mut self, operator: Option<Operator>) -> Result<(), AllocError>
        ensures { OnOk result (Appends self.old self.new (maybe_operator operator)) }
    {
        match operator {
            None => Ok(()),
            Some(operator) => self.operator(operator),
        }
    }

    pub(crate) fn atom(&mut self, atom: &Atom) -> Result<(), AllocError>
        ensures { OnOk result (Appends self.old self.new (atom_tokens atom.now)) }
    {
        match atom {
            Atom::This(place) => self.word(*place, Word::This),
            Atom::Null(place) => self.word(*place, Word::Null),
            Atom::True(place) => self.word(*place, Word::True),
            Atom::False(place) => self.word(*place, Word::False),
            Atom::Integer(place, digits) => {
                self.push(TokenKind::Integer, *place, digits.as_slice())
            }
            Atom::Name(name) => self.identifier(name),
        }
    }

    pub(crate) fn creation(&mut self, creation: Creation) -> Result<(), AllocError>
        ensures { OnOk result (Appends self.old self.new (creation_token creation ∷ [])) }
    {
        match creation {
            Creation::New(place) => self.word(place, Word::New),
            Creation::Const(place) => self.word(place, Word::Const),
        }
    }

    pub(crate) fn piece(
        &mut self,
        kind: PieceKind,
        place: Place,
        text: &Bytes,
    ) -> Result<(), AllocError>
        ensures { OnOk result (Appends self.old self.new (piece_token kind place text.now ∷ [])) }
    {
        let kind = match kind {
            PieceKind::Whole => TokenKind::Whole,
            PieceKind::Head(quote) => TokenKind::Head(quote),
            PieceKind::Middle => TokenKind::Middle,
            PieceKind::Tail => TokenKind::Tail,
        };
        self.push(kind, place, text.as_slice())
    }

    pub(crate) fn maybe_this(&mut self, this: Option<ThisDot>) -> Result<(), AllocError>
        ensures { OnOk result (Appends self.old self.new (maybe_this this)) }
    {
        match this {
            None => Ok(()),
            Some(this) => {
                self.word(this.this, Word::This)?;
                self.sign(this.dot, Sign::Dot)
            }
        }
    }

    pub(crate) fn opening_bracket(&mut self, brackets: Option<Brackets>) -> Result<(), AllocError>
        ensures { OnOk result (Appends self.old self.new (opening_bracket brackets)) }
    {
        match brackets {
            None => Ok(()),
            Some(brackets) => {
                self.maybe_sign(brackets.comma, Sign::Comma)?;
                match brackets.kind {
                    BracketKind::Square => self.sign(brackets.opening, Sign::LeftBracket),
                    BracketKind::Curly => self.sign(brackets.opening, Sign::LeftBrace),
                }
            }
        }
    }

    pub(crate) fn closing_bracket(&mut self, brackets: Option<Brackets>) -> Result<(), AllocError>
        ensures { OnOk result (Appends self.old self.new (closing_bracket brackets)) }
    {
        match brackets {
            None => Ok(()),
            Some(brackets) => match brackets.kind {
                BracketKind::Square => self.sign(brackets.closing, Sign::RightBracket),
                BracketKind::Curly => self.sign(brackets.closing, Sign::RightBrace),
            },
        }
    }

    pub(crate) fn opening_parenthesis(
        &mut self,
        around: Option<Parentheses>,
    ) -> Result<(), AllocError>
        ensures { OnOk result (Appends self.old self.new (opening_parenthesis around)) }
    {
        match around {
            None => Ok(()),
            Some(around) => self.sign(around.opening, Sign::LeftParenthesis),
        }
    }

    pub(crate) fn closing_parenthesis(
        &mut self,
        around: Option<Parentheses>,
    ) -> Result<(), AllocError>
        ensures { OnOk result (Appends self.old self.new (closing_parenthesis around)) }
    {
        match around {
            None => Ok(()),
            Some(around) => self.sign(around.closing, Sign::RightParenthesis),
        }
    }

    pub(crate) fn jump(&mut self, jump: &Jump) -> Result<(), AllocError>
        ensures { OnOk result (Appends self.old self.new (jump_tokens jump.now)) }
    {
        match jump {
            Jump::Break {
                word,
                label,
                semicolon,
            } => {
                self.word(*word, Word::Break)?;
                self.maybe_identifier(label)?;
                self.sign(*semicolon, Sign::Semicolon)
            }
            Jump::Continue {
                word,
                label,
                semicolon,
            } => {
                self.word(*word, Word::Continue)?;
                self.maybe_identifier(label)?;
                self.sign(*semicolon, Sign::Semicolon)
            }
            Jump::Rethrow(word, semicolon) => {
                self.word(*word, Word::Rethrow)?;
                self.sign(*semicolon, Sign::Semicolon)
            }
        }
    }

    fn trace(&mut self, trace: &Option<CommaName>) -> Result<(), AllocError>
        ensures { OnOk result (Appends self.old self.new (trace_tokens trace.now)) }
    {
        match trace {
            None => Ok(()),
            Some(trace) => {
                self.sign(trace.comma, Sign::Comma)?;
                self.identifier(&trace.name)
            }
        }
    }

    fn catch(&mut self, catch: &Catch) -> Result<(), AllocError>
        ensures { OnOk result (Appends self.old self.new (catch_tokens catch.now)) }
    {
        self.word(catch.word, Word::Catch)?;
        self.sign(catch.opening, Sign::LeftParenthesis)?;
        self.identifier(&catch.exception)?;
        self.trace(&catch.trace)?;
        self.sign(catch.closing, Sign::RightParenthesis)
    }

    fn maybe_catch(&mut self, catch: &Option<Catch>) -> Result<(), AllocError>
        ensures { OnOk result (Appends self.old self.new (maybe_catch catch.now)) }
    {
        match catch {
            None => Ok(()),
            Some(catch) => self.catch(catch),
        }
    }

    pub(crate) fn try_kind(&mut self, kind: &TryKind) -> Result<(), AllocError>
        ensures { OnOk result (Appends self.old self.new (try_kind_tokens (view.try_kind kind.now))) }
    {
        match kind {
            TryKind::On {
                word,
                type_node,
                catch,
            } => {
                self.contextual(*word, b"on")?;
                self.type_node(type_node)?;
                self.maybe_catch(catch)
            }
            TryKind::Catch(catch) => self.catch(catch),
            TryKind::Finally(place) => self.word(*place, Word::Finally),
        }
    }

    #[cycle(types)]
    pub(crate) fn type_node(&mut self, of: &TypeNode) -> Result<(), AllocError>
        ensures { OnOk result (Appends self.old self.new (type_tokens (view.type_node of.now))) }
    {
        match of {
            TypeNode::Dynamic(place) => self.word(*place, Word::Dynamic),
            TypeNode::Named {
                name,
                member,
                arguments,
            } => {
                self.identifier(name)?;
                self.maybe_dot_name(member)?;
                self.type_arguments(arguments)
            }
        }
    }

    #[cycle(types)]
    pub(crate) fn type_arguments(&mut self, arguments: &TypeArguments) -> Result<(), AllocError>
        ensures { OnOk result (Appends self.old self.new
            (type_arguments_tokens (view.type_arguments arguments.now))) }
    {
        match arguments {
            TypeArguments::Omitted => Ok(()),
            TypeArguments::Listed {
                opening,
                arguments,
                closing,
            } => {
                self.sign(*opening, Sign::Less)?;
                self.type_list(arguments)?;
                self.sign(*closing, Sign::Greater)
            }
        }
    }

    #[cycle(types)]
    pub(crate) fn type_list(&mut self, listed: &Vec<TypeArgument>) -> Result<(), AllocError>
        ensures { OnOk result (Appends self.old self.new
            (type_list_tokens (type_list_of listed.now.items))) }
    {
        for one in listed {
            self.maybe_sign(one.comma, Sign::Comma)?;
            self.type_node(&one.argument)?;
        }
        Ok(())
    }

    fn maybe_type(&mut self, of: &Option<Box<TypeNode>>) -> Result<(), AllocError>
        ensures { OnOk result (Appends self.old self.new (maybe_type (view.type_option of.now))) }
    {
        match of {
            None => Ok(()),
            Some(of) => self.type_node(of),
        }
    }

    pub(crate) fn maybe_result(&mut self, of: &Option<ResultType>) -> Result<(), AllocError>
        ensures { OnOk result (Appends self.old self.new (maybe_result (view.result_option of.now))) }
    {
        match of {
            None => Ok(()),
            Some(ResultType::Void(place)) => self.word(*place, Word::Void),
            Some(ResultType::Typed(of)) => self.type_node(of),
        }
    }

    pub(crate) fn variable_kind(&mut self, kind: &VariableKind) -> Result<(), AllocError>
        ensures { OnOk result (Appends self.old self.new (kind_tokens (view.variable_kind kind.now))) }
    {
        match kind {
            VariableKind::Omitted => Ok(()),
            VariableKind::Var(place) => self.word(*place, Word::Var),
            VariableKind::Final(place, of) => {
                self.word(*place, Word::Final)?;
                self.maybe_type(of)
            }
            VariableKind::Const(place, of) => {
                self.word(*place, Word::Const)?;
                self.maybe_type(of)
            }
            VariableKind::Typed(of) => self.type_node(of),
        }
    }
}

// The tokens of declarations.
ghost use Rattle.std.specs.Prelude.{◌≡◌, IfOk, OnOk, map, flat_map};
ghost use Rattle.dart_tree.specs.UnitTokens.{tokens_if, bound_tokens, type_parameter_tokens};
ghost use Rattle.dart_tree.specs.UnitTokens.{type_parameters_tokens, clause_tokens};
ghost use Rattle.dart_tree.specs.UnitTokens.{superclass_tokens, constructor_name_tokens};
ghost use Rattle.dart_tree.specs.UnitTokens.{init_kind_tokens, init_tokens, initializers_tokens};
ghost use Rattle.dart_tree.specs.UnitTokens.{constructor_tokens, accessor_kind_tokens};
ghost use Rattle.dart_tree.specs.UnitTokens.{accessor_tokens, operator_name_tokens};
ghost use Rattle.dart_tree.specs.UnitTokens.{operator_member_tokens, modifier_tokens};
ghost use Rattle.dart_tree.specs.UnitTokens.{member_kind_tokens, member_tokens};
ghost use Rattle.dart_tree.specs.UnitTokens.{class_kind_tokens, class_tokens, alias_tokens};
ghost use Rattle.dart_tree.specs.UnitTokens.{comma_name_tokens, enum_tokens, decl_kind_tokens};
ghost use Rattle.dart_tree.specs.UnitTokens.{decl_tokens};
ghost use Rattle.dart_tree.specs.UnitView as uv;
ghost use Rattle.dart_unparse.specs.Writer.{Appends};

use crate::leaf::Writer;
use dart_token::sign::Sign;
use dart_token::token::Token;
use dart_token::word::Word;
use dart_tree::declaration::{
    Accessor, AccessorKind, Alias, Bound, Class, ClassKind, Constructor, ConstructorName, Decl,
    DeclKind, Enum, Init, InitKind, Initializers, Member, MemberKind, Modifier, OperatorMember,
    OperatorName, Superclass, TypeClause, TypeParameter, TypeParameters,
};
use dart_tree::identifier::CommaName;
use std::alloc::{AllocError, Global};

/// The tokens of a member of a class in order, with their places.
pub fn member_tokens(alloc: Global, member: &Member) -> Result<Vec<Token>, AllocError>
    ensures { IfOk result (λ out. out.items ≡ member_tokens (uv.member member.now)) }
{
    let mut writer = Writer {
        alloc,
        tokens: Vec::new(alloc),
    };
    writer.member(member)?;
    Ok(writer.tokens)
}

impl Writer {
    fn maybe_bound(&mut self, bound: &Option<Bound>) -> Result<(), AllocError>
        ensures { OnOk result (Appends self.old self.new
            (tokens_if bound_tokens (uv.maybe uv.bound bound.now))) }
    {
        match bound {
            None => Ok(()),
            Some(bound) => {
                self.word(bound.word, Word::Extends)?;
                self.type_node(&bound.bound)
            }
        }
    }

    fn type_parameter(&mut self, tree: &TypeParameter) -> Result<(), AllocError>
        ensures { OnOk result (Appends self.old self.new
            (type_parameter_tokens (uv.type_parameter tree.now))) }
    {
        self.maybe_sign(tree.comma, Sign::Comma)?;
        self.metadata(&tree.metadata)?;
        self.identifier(&tree.name)?;
        self.maybe_bound(&tree.bound)
    }

    fn type_parameter_list(&mut self, all: &Vec<TypeParameter>) -> Result<(), AllocError>
        ensures { OnOk result (Appends self.old self.new
            (flat_map type_parameter_tokens (map uv.type_parameter all.now.items))) }
    {
        for one in all {
            self.type_parameter(one)?;
        }
        Ok(())
    }

    fn type_parameters(&mut self, tree: &Option<TypeParameters>) -> Result<(), AllocError>
        ensures { OnOk result (Appends self.old self.new
            (tokens_if type_parameters_tokens (uv.maybe uv.type_parameters tree.now))) }
    {
        match tree {
            None => Ok(()),
            Some(tree) => {
                self.sign(tree.opening, Sign::Less)?;
                self.type_parameter_list(&tree.items)?;
                self.sign(tree.closing, Sign::Greater)
            }
        }
    }

    fn clause(&mut self, word: Word, tree: &TypeClause) -> Result<(), AllocError>
        ensures { OnOk result (Appends self.old self.new
            (clause_tokens word (uv.type_clause tree.now))) }
    {
        self.word(tree.word, word)?;
        self.type_list(&tree.types)
    }

    fn maybe_clause(&mut self, word: Word, tree: &Option<TypeClause>) -> Result<(), AllocError>
        ensures { OnOk result (Appends self.old self.new
            (tokens_if (clause_tokens word) (uv.maybe uv.type_clause tree.now))) }
    {
        match tree {
            None => Ok(()),
            Some(tree) => self.clause(word, tree),
        }
    }

    fn maybe_superclass(&mut self, tree: &Option<Superclass>) -> Result<(), AllocError>
        ensures { OnOk result (Appends self.old self.new
            (tokens_if superclass_tokens (uv.maybe uv.superclass tree.now))) }
    {
        match tree {
            None => Ok(()),
            Some(tree) => {
                self.word(tree.word, Word::Extends)?;
                self.type_node(&tree.superclass)?;
                self.maybe_clause(Word::With, &tree.mixins)
            }
        }
    }

    fn constructor_name(&mut self, tree: &ConstructorName) -> Result<(), AllocError>
        ensures { OnOk result (Appends self.old self.new (constructor_name_tokens tree.now)) }
    {
        self.identifier(&tree.class)?;
        self.maybe_dot_name(&tree.name)
    }

    fn init_kind(&mut self, tree: &InitKind) -> Result<(), AllocError>
        ensures { OnOk result (Appends self.old self.new (init_kind_tokens (uv.init_kind tree.now))) }
    {
        match tree {
            InitKind::Super {
                word,
                constructor,
                arguments,
            } => {
                self.word(*word, Word::Super)?;
                self.maybe_dot_name(constructor)?;
                self.arguments(arguments)
            }
            InitKind::Field {
                this_dot,
                name,
                equals,
                operand,
                cascades,
            } => {
                self.maybe_this(*this_dot)?;
                self.identifier(name)?;
                self.sign(*equals, Sign::Assign)?;
                self.operand(operand)?;
                self.cascades(cascades)
            }
        }
    }

    fn inits(&mut self, all: &Vec<Init>) -> Result<(), AllocError>
        ensures { OnOk result (Appends self.old self.new
            (flat_map init_tokens (map uv.init all.now.items))) }
    {
        for one in all {
            self.maybe_sign(one.comma, Sign::Comma)?;
            self.init_kind(&one.kind)?;
        }
        Ok(())
    }

    fn initializers(&mut self, tree: &Option<Initializers>) -> Result<(), AllocError>
        ensures { OnOk result (Appends self.old self.new
            (tokens_if initializers_tokens (uv.maybe uv.initializers tree.now))) }
    {
        match tree {
            None => Ok(()),
            Some(tree) => {
                self.sign(tree.colon, Sign::Colon)?;
                self.inits(&tree.items)
            }
        }
    }

    fn constructor(&mut self, tree: &Constructor) -> Result<(), AllocError>
        ensures { OnOk result (Appends self.old self.new
            (constructor_tokens (uv.constructor tree.now))) }
    {
        match tree {
            Constructor::Generative {
                constant,
                name,
                parameters,
                initializers,
                body,
            } => {
                self.maybe_word(*constant, Word::Const)?;
                self.constructor_name(name)?;
                self.parameters(parameters)?;
                self.initializers(initializers)?;
                self.body(body)
            }
            Constructor::Redirecting {
                name,
                parameters,
                colon,
                this,
                constructor,
                arguments,
                semicolon,
            } => {
                self.constructor_name(name)?;
                self.parameters(parameters)?;
                self.sign(*colon, Sign::Colon)?;
                self.word(*this, Word::This)?;
                self.maybe_dot_name(constructor)?;
                self.arguments(arguments)?;
                self.sign(*semicolon, Sign::Semicolon)
            }
            Constructor::Factory {
                external,
                word,
                name,
                parameters,
                body,
            } => {
                self.maybe_word(*external, Word::External)?;
                self.word(*word, Word::Factory)?;
                self.constructor_name(name)?;
                self.parameters(parameters)?;
                self.body(body)
            }
            Constructor::RedirectingFactory {
                external,
                word,
                name,
                parameters,
                equals,
                class,
                constructor,
                semicolon,
            } => {
                self.maybe_word(*external, Word::External)?;
                self.word(*word, Word::Factory)?;
                self.constructor_name(name)?;
                self.parameters(parameters)?;
                self.sign(*equals, Sign::Assign)?;
                self.type_node(class)?;
                self.maybe_dot_name(constructor)?;
                self.sign(*semicolon, Sign::Semicolon)
            }
        }
    }

    fn accessor_kind(&mut self, tree: &AccessorKind) -> Result<(), AllocError>
        ensures { OnOk result (Appends self.old self.new
            (accessor_kind_tokens (uv.accessor_kind tree.now))) }
    {
        match tree {
            AccessorKind::Get(word, name) => {
                self.word(*word, Word::Get)?;
                self.identifier(name)
            }
            AccessorKind::Set {
                word,
                name,
                parameters,
            } => {
                self.word(*word, Word::Set)?;
                self.identifier(name)?;
                self.parameters(parameters)
            }
        }
    }

    fn accessor(&mut self, tree: &Accessor) -> Result<(), AllocError>
        ensures { OnOk result (Appends self.old self.new (accessor_tokens (uv.accessor tree.now))) }
    {
        self.maybe_word(tree.external, Word::External)?;
        self.maybe_result(&tree.result_type)?;
        self.accessor_kind(&tree.kind)?;
        self.body(&tree.body)
    }

    fn operator_name(&mut self, name: OperatorName) -> Result<(), AllocError>
        ensures { OnOk result (Appends self.old self.new (operator_name_tokens name)) }
    {
        match name {
            OperatorName::Sign(place, sign) => self.sign(place, sign),
            OperatorName::ShiftRight(first, second) => {
                self.sign(first, Sign::Greater)?;
                self.sign(second, Sign::Greater)
            }
            OperatorName::Index(opening, closing) => {
                self.sign(opening, Sign::LeftBracket)?;
                self.sign(closing, Sign::RightBracket)
            }
            OperatorName::IndexAssign {
                opening,
                closing,
                equals,
            } => {
                self.sign(opening, Sign::LeftBracket)?;
                self.sign(closing, Sign::RightBracket)?;
                self.sign(equals, Sign::Assign)
            }
        }
    }

    fn operator_member(&mut self, tree: &OperatorMember) -> Result<(), AllocError>
        ensures { OnOk result (Appends self.old self.new
            (operator_member_tokens (uv.operator_member tree.now))) }
    {
        self.maybe_word(tree.external, Word::External)?;
        self.maybe_result(&tree.result_type)?;
        self.word(tree.word, Word::Operator)?;
        self.operator_name(tree.name)?;
        self.parameters(&tree.parameters)?;
        self.body(&tree.body)
    }

    fn modifier(&mut self, modifier: Modifier) -> Result<(), AllocError>
        ensures { OnOk result (Appends self.old self.new (modifier_tokens modifier)) }
    {
        match modifier {
            Modifier::Omitted => Ok(()),
            Modifier::Static(place) => self.word(place, Word::Static),
            Modifier::ExternalStatic(external, place) => {
                self.word(external, Word::External)?;
                self.word(place, Word::Static)
            }
        }
    }

    fn member_kind(&mut self, tree: &MemberKind) -> Result<(), AllocError>
        ensures { OnOk result (Appends self.old self.new
            (member_kind_tokens (uv.member_kind tree.now))) }
    {
        match tree {
            MemberKind::Constructor(made) => self.constructor(made),
            MemberKind::Function(made) => self.function(made),
            MemberKind::Accessor(made) => self.accessor(made),
            MemberKind::Variables(made) => self.variables(made),
            MemberKind::Operator(made) => self.operator_member(made),
        }
    }

    fn member(&mut self, tree: &Member) -> Result<(), AllocError>
        ensures { OnOk result (Appends self.old self.new (member_tokens (uv.member tree.now))) }
    {
        self.metadata(&tree.metadata)?;
        self.modifier(tree.modifier)?;
        self.member_kind(&tree.kind)
    }

    fn members(&mut self, all: &Vec<Member>) -> Result<(), AllocError>
        ensures { OnOk result (Appends self.old self.new
            (flat_map member_tokens (map uv.member all.now.items))) }
    {
        for one in all {
            self.member(one)?;
        }
        Ok(())
    }

    fn class_kind(&mut self, tree: &ClassKind) -> Result<(), AllocError>
        ensures { OnOk result (Appends self.old self.new (class_kind_tokens (uv.class_kind tree.now))) }
    {
        match tree {
            ClassKind::Declared {
                superclass,
                interfaces,
                opening,
                members,
                closing,
            } => {
                self.maybe_superclass(superclass)?;
                self.maybe_clause(Word::Implements, interfaces)?;
                self.sign(*opening, Sign::LeftBrace)?;
                self.members(members)?;
                self.sign(*closing, Sign::RightBrace)
            }
            ClassKind::Mixed {
                equals,
                superclass,
                mixins,
                interfaces,
                semicolon,
            } => {
                self.sign(*equals, Sign::Assign)?;
                self.type_node(superclass)?;
                self.clause(Word::With, mixins)?;
                self.maybe_clause(Word::Implements, interfaces)?;
                self.sign(*semicolon, Sign::Semicolon)
            }
        }
    }

    fn class(&mut self, tree: &Class) -> Result<(), AllocError>
        ensures { OnOk result (Appends self.old self.new (class_tokens (uv.class tree.now))) }
    {
        self.maybe_word(tree.abstracted, Word::Abstract)?;
        self.word(tree.word, Word::Class)?;
        self.identifier(&tree.name)?;
        self.type_parameters(&tree.parameters)?;
        self.class_kind(&tree.kind)
    }

    fn alias(&mut self, tree: &Alias) -> Result<(), AllocError>
        ensures { OnOk result (Appends self.old self.new (alias_tokens (uv.alias tree.now))) }
    {
        self.word(tree.word, Word::Typedef)?;
        self.maybe_result(&tree.result_type)?;
        self.identifier(&tree.name)?;
        self.type_parameters(&tree.type_parameters)?;
        self.parameters(&tree.parameters)?;
        self.sign(tree.semicolon, Sign::Semicolon)
    }

    pub(crate) fn comma_names(&mut self, all: &Vec<CommaName>) -> Result<(), AllocError>
        ensures { OnOk result (Appends self.old self.new (flat_map comma_name_tokens all.now.items)) }
    {
        for one in all {
            self.sign(one.comma, Sign::Comma)?;
            self.identifier(&one.name)?;
        }
        Ok(())
    }

    fn enum_declaration(&mut self, tree: &Enum) -> Result<(), AllocError>
        ensures { OnOk result (Appends self.old self.new (enum_tokens (uv.enum tree.now))) }
    {
        self.word(tree.word, Word::Enum)?;
        self.identifier(&tree.name)?;
        self.sign(tree.opening, Sign::LeftBrace)?;
        self.identifier(&tree.first)?;
        self.comma_names(&tree.more)?;
        self.maybe_sign(tree.comma, Sign::Comma)?;
        self.sign(tree.closing, Sign::RightBrace)
    }

    fn decl_kind(&mut self, tree: &DeclKind) -> Result<(), AllocError>
        ensures { OnOk result (Appends self.old self.new (decl_kind_tokens (uv.decl_kind tree.now))) }
    {
        match tree {
            DeclKind::Class(made) => self.class(made),
            DeclKind::Alias(made) => self.alias(made),
            DeclKind::Function(made) => self.function(made),
            DeclKind::Accessor(made) => self.accessor(made),
            DeclKind::Variables(made) => self.variables(made),
            DeclKind::Enum(made) => self.enum_declaration(made),
        }
    }

    fn decl(&mut self, tree: &Decl) -> Result<(), AllocError>
        ensures { OnOk result (Appends self.old self.new (decl_tokens (uv.decl tree.now))) }
    {
        self.metadata(&tree.metadata)?;
        self.decl_kind(&tree.kind)
    }

    pub(crate) fn decls(&mut self, all: &Vec<Decl>) -> Result<(), AllocError>
        ensures { OnOk result (Appends self.old self.new
            (flat_map decl_tokens (map uv.decl all.now.items))) }
    {
        for one in all {
            self.decl(one)?;
        }
        Ok(())
    }
}

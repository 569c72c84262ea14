// The tokens of units.
ghost use Rattle.std.specs.Prelude.{◌≡◌, [], ◌∷◌, OnOk, IfOk, map, flat_map};
ghost use Rattle.dart_tree.specs.UnitTokens.{tokens_if, contextual};
ghost use Rattle.dart_tree.specs.UnitTokens.{combinator_text, combinator_tokens, prefix_tokens};
ghost use Rattle.dart_tree.specs.UnitTokens.{directive_kind_tokens, directive_tokens};
ghost use Rattle.dart_tree.specs.UnitTokens.{unit_tokens};
ghost use Rattle.dart_tree.specs.UnitView as uv;
ghost use Rattle.dart_unparse.specs.Writer.{Appends};

use crate::leaf::Writer;
use dart_base::place::Place;
use dart_token::sign::Sign;
use dart_token::token::Token;
use dart_token::word::Word;
use dart_tree::unit::{Combinator, CombinatorKind, Directive, DirectiveKind, Prefix, Unit};
use std::alloc::{AllocError, Global};

/// The tokens of a unit in order, with their places.
pub fn tokens(alloc: Global, unit: &Unit) -> Result<Vec<Token>, AllocError>
    ensures { IfOk result (λ out. out.items ≡ unit_tokens (uv.unit unit.now)) }
{
    let mut writer = Writer {
        alloc,
        tokens: Vec::new(alloc),
    };
    writer.directives(&unit.directives)?;
    writer.decls(&unit.declarations)?;
    Ok(writer.tokens)
}

impl Writer {
    fn combinator_word(&mut self, kind: CombinatorKind, place: Place) -> Result<(), AllocError>
        ensures { OnOk result (Appends self.old self.new
            (contextual place (combinator_text kind) ∷ [])) }
    {
        match kind {
            CombinatorKind::Show => self.contextual(place, b"show"),
            CombinatorKind::Hide => self.contextual(place, b"hide"),
        }
    }

    fn combinators(&mut self, all: &Vec<Combinator>) -> Result<(), AllocError>
        ensures { OnOk result (Appends self.old self.new
            (flat_map combinator_tokens (map uv.combinator all.now.items))) }
    {
        for one in all {
            self.combinator_word(one.kind, one.word)?;
            self.identifier(&one.first)?;
            self.comma_names(&one.more)?;
        }
        Ok(())
    }

    fn maybe_prefix(&mut self, prefix: &Option<Prefix>) -> Result<(), AllocError>
        ensures { OnOk result (Appends self.old self.new (tokens_if prefix_tokens prefix.now)) }
    {
        match prefix {
            None => Ok(()),
            Some(prefix) => {
                self.word(prefix.word, Word::As)?;
                self.identifier(&prefix.name)
            }
        }
    }

    fn directive_kind(&mut self, tree: &DirectiveKind) -> Result<(), AllocError>
        ensures { OnOk result (Appends self.old self.new
            (directive_kind_tokens (uv.directive_kind tree.now))) }
    {
        match tree {
            DirectiveKind::PartOf {
                word,
                of_word,
                name,
                more,
            } => {
                self.word(*word, Word::Part)?;
                self.contextual(*of_word, b"of")?;
                self.identifier(name)?;
                self.dot_names(more)
            }
            DirectiveKind::Library { word, name, more } => {
                self.word(*word, Word::Library)?;
                self.identifier(name)?;
                self.dot_names(more)
            }
            DirectiveKind::Import {
                word,
                uri,
                prefix,
                combinators,
            } => {
                self.word(*word, Word::Import)?;
                self.pieces(uri)?;
                self.maybe_prefix(prefix)?;
                self.combinators(combinators)
            }
            DirectiveKind::Export {
                word,
                uri,
                combinators,
            } => {
                self.word(*word, Word::Export)?;
                self.pieces(uri)?;
                self.combinators(combinators)
            }
            DirectiveKind::Part(word, uri) => {
                self.word(*word, Word::Part)?;
                self.pieces(uri)
            }
        }
    }

    fn directive(&mut self, tree: &Directive) -> Result<(), AllocError>
        ensures { OnOk result (Appends self.old self.new (directive_tokens (uv.directive tree.now))) }
    {
        self.metadata(&tree.metadata)?;
        self.directive_kind(&tree.kind)?;
        self.sign(tree.semicolon, Sign::Semicolon)
    }

    fn directives(&mut self, all: &Vec<Directive>) -> Result<(), AllocError>
        ensures { OnOk result (Appends self.old self.new
            (flat_map directive_tokens (map uv.directive all.now.items))) }
    {
        for one in all {
            self.directive(one)?;
        }
        Ok(())
    }
}

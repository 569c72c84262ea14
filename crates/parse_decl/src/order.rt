// Items of a unit, and which of them may stand behind others (ECMA-408, 18 Libraries and Scripts).
ghost use Rattle.std.specs.Prelude.{◌≡◌};
ghost use Rattle.dart_tree.specs.UnitView as view;
ghost use Rattle.parse_decl.specs.Views.{behind_item, item_of, still_of};
ghost use Rattle.syntax_readers.specs.Units as spec;

use dart_tree::declaration::Decl;
use dart_tree::unit::{Directive, DirectiveKind};

/// A directive or a declaration (ECMA-408, 18 Libraries and Scripts).
#[derive(Drop)]
pub enum Item {
    Directive(Directive),
    Decl(Decl),
}

/// Which directives may still come (ECMA-408, 18 Libraries and Scripts).
#[derive(Clone, Copy)]
pub enum Still {
    AllDirectives,
    ImportsAndParts,
    OnlyParts,
    NoDirectives,
}

/// Whether the name of a library or the header of a part may come.
pub fn may_begin(still: Still) -> bool
    ensures { result ≡ spec.may_begin (still_of still) }
{
    match still {
        Still::AllDirectives => true,
        Still::ImportsAndParts | Still::OnlyParts | Still::NoDirectives => false,
    }
}

/// Whether an import or an export may come.
pub fn may_import(still: Still) -> bool
    ensures { result ≡ spec.may_import (still_of still) }
{
    match still {
        Still::AllDirectives | Still::ImportsAndParts => true,
        Still::OnlyParts | Still::NoDirectives => false,
    }
}

/// Whether a part may come.
pub fn may_have_parts(still: Still) -> bool
    ensures { result ≡ spec.may_have_parts (still_of still) }
{
    match still {
        Still::AllDirectives | Still::ImportsAndParts | Still::OnlyParts => true,
        Still::NoDirectives => false,
    }
}

// Which directives may come behind a directive.
fn behind_directive(kind: &DirectiveKind) -> Still
    ensures { still_of result ≡ spec.behind_directive (view.directive_kind kind.now) }
{
    match kind {
        DirectiveKind::PartOf { .. } => Still::NoDirectives,
        DirectiveKind::Part(..) => Still::OnlyParts,
        DirectiveKind::Library { .. }
        | DirectiveKind::Import { .. }
        | DirectiveKind::Export { .. } => Still::ImportsAndParts,
    }
}

/// Which directives may come behind an item.
pub fn behind_item(item: &Item) -> Still
    ensures { still_of result ≡ behind_item (item_of item.now) }
{
    match item {
        Item::Directive(directive) => behind_directive(&directive.kind),
        Item::Decl(_) => Still::NoDirectives,
    }
}

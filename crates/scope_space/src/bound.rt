// What a name is bound to.
ghost use Rattle.std.specs.Prelude.{◌≡◌, find, ◌&&◌, not};
ghost use Rattle.std.specs.List.{list_any};
ghost use Rattle.scope_space.specs.Namespace.{is_under};
ghost use Rattle.scope_space.specs.Building.{bound_in, first_offer, is_of_files, is_offered, is_rival};

use crate::offer::Offer;
use dart_base::name::Name;

/// What a name is bound to in a namespace of imports (ECMA-408, 18.1 Imports).
#[derive(Clone, Copy, Debug, PartialEq, Eq)]
pub enum Bound {
    /// What the library of the number declares.
    Given(u32),
    /// What several libraries declare, of which none wins.
    Ambiguous,
    /// Nothing.
    Unknown,
}

/// What a name means in a library outside its declarations (ECMA-408, 16.33 Identifier Reference).
#[derive(Clone, Copy, Debug, PartialEq, Eq)]
pub enum Binding {
    /// What the library itself declares.
    Own,
    /// A prefix of its imports.
    Prefix,
    /// What its imports without a prefix give.
    Imported(Bound),
}

/// What offers of one name come to under the prefix, or under none.
pub fn bound_of(offers: &[Offer], prefix: Option<Name>) -> Bound
    ensures { result ≡ bound_in prefix offers.now }
{
    match first_offer(offers, prefix) {
        None => Bound::Unknown,
        Some(first) => {
            if has_rival(offers, prefix, first) {
                Bound::Ambiguous
            } else {
                Bound::Given(first.owner)
            }
        }
    }
}

/// The first offer of one of the program's files, or else the first of all.
fn first_offer(offers: &[Offer], prefix: Option<Name>) -> Option<Offer>
    ensures { result ≡ first_offer prefix offers.now }
{
    match first_of_files(offers, prefix) {
        Some(offer) => Some(offer),
        None => first_of_all(offers, prefix),
    }
}

fn first_of_files(offers: &[Offer], prefix: Option<Name>) -> Option<Offer>
    ensures { result ≡ find (is_of_files prefix) offers.now }
{
    offers
        .iter()
        .copied()
        .find(|offer| !offer.is_dart && is_under(prefix, offer.prefix))
}

fn first_of_all(offers: &[Offer], prefix: Option<Name>) -> Option<Offer>
    ensures { result ≡ find (is_offered prefix) offers.now }
{
    offers
        .iter()
        .copied()
        .find(|offer| is_under(prefix, offer.prefix))
}

/// Whether an offer is as good as the first and of another owner.
fn has_rival(offers: &[Offer], prefix: Option<Name>, first: Offer) -> bool
    ensures { result ≡ list_any (is_rival prefix first) offers.now }
{
    offers.iter().any(|offer| is_rival(offer, prefix, first))
}

/// Whether the offer is as good as the first and of another owner.
fn is_rival(offer: &Offer, prefix: Option<Name>, first: Offer) -> bool
    ensures { result ≡ is_rival prefix first offer.now }
{
    is_under(prefix, offer.prefix)
        && (first.is_dart || !offer.is_dart)
        && offer.owner != first.owner
}

/// Whether an import has the prefix that is asked for, or none where none is asked for.
fn is_under(prefix: Option<Name>, given: Option<Name>) -> bool
    ensures { result ≡ is_under prefix given }
{
    match (prefix, given) {
        (None, None) => true,
        (Some(prefix), Some(given)) => given.0 == prefix.0,
        _ => false,
    }
}

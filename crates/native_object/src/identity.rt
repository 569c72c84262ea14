// When two values are the same, and the number that a value shows.
ghost use Rattle.std.specs.Prelude.{◌≡◌, ◌+◌, ◌*◌, ◌%◌, ◌^◌, fold, pos, slice_get, unwrap_or};
ghost use Rattle.native_object.specs.Identity as spec;
ghost use Rattle.native_object.specs.IdentityView.{seen, method};

use crate::types::same_type;
use dart_base::units::Units;
use dart_ir::number::{DeclId, MemberId, Ref};
use dart_ir::types::TypeRef;
use dart_ir::value::{Value, integer_of};
use dart_store::store::{Kind, Store};
use dart_store::view::ObjectView;

/// What of a value tells whether another one is the same.
#[derive(Clone, Copy)]
enum Identity<'a> {
    Nothing,
    Truth(bool),
    Integer(u64, u64),
    Text(&'a [u16]),
    Type(&'a TypeRef),
    Function(DeclId),
    Object(Ref),
}

// The identity of an object.
fn object_identity(store: &Store, r: Ref) -> Identity<'_>
    ensures { seen result ≡ spec.object_identity r.0 (slice_get store.now.objects r.0) }
{
    match store.get(r) {
        Some(ObjectView::Text(units)) => Identity::Text(units),
        Some(ObjectView::TypeValue(t)) => Identity::Type(t),
        _ => Identity::Object(r),
    }
}

// The identity of a string literal.
fn literal_identity(literals: &[Units], index: u32) -> Identity<'_>
    ensures { seen result ≡ spec.string_identity (slice_get literals.now index) }
{
    match literals.get(index as usize) {
        Some(units) => Identity::Text(units.as_slice()),
        None => Identity::Nothing,
    }
}

// The identity of a value.
fn identity_of<'a>(literals: &'a [Units], store: &'a Store, value: Value) -> Identity<'a>
    ensures { seen result ≡ spec.identity literals.now store.now value }
{
    match value {
        Value::Null => Identity::Nothing,
        Value::Bool(b) => Identity::Truth(b),
        Value::Int { high, low } => Identity::Integer(high, low),
        Value::Literal(index) => literal_identity(literals, index),
        Value::Code(function) => Identity::Function(function),
        Value::At(r) => object_identity(store, r),
    }
}

fn same_bool(a: bool, b: bool) -> bool
    ensures { result ≡ spec.same_bool a b }
{
    if a { b } else { !b }
}

// Whether two identities are the same.
fn same_identity(a: &Identity<'_>, b: &Identity<'_>) -> bool
    ensures { result ≡ spec.same_identity (seen a.now) (seen b.now) }
{
    match (a, b) {
        (Identity::Nothing, Identity::Nothing) => true,
        (Identity::Truth(x), Identity::Truth(y)) => same_bool(*x, *y),
        (Identity::Integer(high, low), Identity::Integer(other_high, other_low)) => {
            *high == *other_high && *low == *other_low
        }
        (Identity::Text(s), Identity::Text(t)) => *s == *t,
        (Identity::Type(t), Identity::Type(u)) => same_type(t, u),
        (Identity::Function(f), Identity::Function(g)) => f.0 == g.0,
        (Identity::Object(r), Identity::Object(q)) => r.0 == q.0,
        _ => false,
    }
}

// Whether two values are the same that aren't both methods taken off an object.
fn same_plain(literals: &[Units], store: &Store, x: Value, y: Value) -> bool
    ensures { result ≡ spec.same_identity (spec.identity literals.now store.now x) (spec.identity literals.now store.now y) }
{
    let a = identity_of(literals, store, x);
    let b = identity_of(literals, store, y);
    same_identity(&a, &b)
}

/// A method that was taken off an object.
#[derive(Clone, Copy)]
struct Method {
    receiver: Value,
    member: MemberId,
}

// The method that was taken off an object which a value is.
fn method_at(store: &Store, value: Value) -> Option<Method>
    ensures { method result ≡ spec.method_at store.now value }
{
    let Value::At(r) = value else {
        return None;
    };
    match store.kind(r) {
        Kind::Bound(member) => Some(Method {
            receiver: store.receiver(r),
            member,
        }),
        _ => None,
    }
}

// How many receivers are looked through.
fn depth(value: Value) -> u64
    ensures { result ≡ spec.depth value }
{
    match value {
        Value::At(r) => r.0,
        _ => 0,
    }
}

/// Whether two values are the same (ECMA-408, 16.12 Object Identity): null, booleans, integers, strings and types by value,
/// methods taken off an object where the receivers and the method are the same, and others as objects. Takes no memory.
pub fn identical(literals: &[Units], store: &Store, x: Value, y: Value) -> bool
    ensures { result ≡ spec.identical literals.now store.now x y }
{
    let mut left = depth(x);
    let mut a = x;
    let mut b = y;
    'receivers: loop {
        let Some(first) = method_at(store, a) else {
            return same_plain(literals, store, a, b);
        };
        let Some(second) = method_at(store, b) else {
            return same_plain(literals, store, a, b);
        };
        if first.member.0 != second.member.0 || left == 0 {
            return false;
        }
        left -= 1;
        a = first.receiver;
        b = second.receiver;
    }
}

// The number of a text.
fn text_hash(units: &[u16]) -> u64
    ensures { result ≡ spec.text_hash units.now }
{
    let mut hash: u64 = 0;
    for unit in units {
        hash = (31 * hash + u64::from(*unit)) % 0x4000_0000;
    }
    hash
}

// The number of an object.
fn object_hash(store: &Store, r: Ref) -> u64
    ensures { result ≡ spec.object_hash store.now r.0 (slice_get store.now.objects r.0) }
{
    match store.get(r) {
        Some(ObjectView::Text(units)) => text_hash(units),
        Some(ObjectView::TypeValue(_)) => 3,
        Some(
            ObjectView::Bound {
                receiver: _,
                member: _,
            },
        ) => 4,
        Some(ObjectView::SendPort { isolate: _, port }) => u64::from(port),
        _ => store.number(r),
    }
}

// The number of a string literal.
fn literal_hash(literals: &[Units], index: u32) -> u64
    ensures { result ≡ spec.string_hash (slice_get literals.now index) }
{
    match literals.get(index as usize) {
        Some(units) => text_hash(units.as_slice()),
        None => 0,
    }
}

/// The number that a value shows as its `hashCode`. Takes no memory.
pub fn hash(literals: &[Units], store: &Store, value: Value) -> i128
    ensures { result ≡ spec.hash literals.now store.now value }
{
    match value {
        Value::Null => 0,
        Value::Bool(true) => 1,
        Value::Bool(false) => 2,
        Value::Int { high, low } => integer_of(high, low).rem_euclid(0x4000_0000),
        Value::Literal(index) => literal_hash(literals, index) as i128,
        Value::Code(_) => 5,
        Value::At(r) => object_hash(store, r) as i128,
    }
}

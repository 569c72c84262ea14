// Numbers of types, by which a list of types is looked for: equal lists have equal ones.

use dart_ir::types::{FunctionType, NamedType, TypeRef};

// A number with another one mixed in, as FNV-1a does with a byte.
fn mixed(hash: u64, number: u32) -> u64 {
    (hash ^ u64::from(number)).wrapping_mul(0x100_0000_01b3)
}

// The number of a type behind others.
#[cycle(hash)]
fn hash_type(hash: u64, t: &TypeRef) -> u64 {
    match t {
        TypeRef::Dynamic => mixed(hash, 1),
        TypeRef::Bottom => mixed(hash, 2),
        TypeRef::Void => mixed(hash, 3),
        TypeRef::Class(class, types) => hash_types(mixed(mixed(hash, 4), class.0), types),
        TypeRef::Param(index) => mixed(mixed(hash, 5), *index),
        TypeRef::Function(function) => hash_function(mixed(hash, 6), function),
    }
}

/// The number of types behind others.
#[cycle(hash)]
pub fn hash_types(hash: u64, types: &[TypeRef]) -> u64 {
    let mut all = hash;
    for t in types {
        all = hash_type(all, t);
    }
    mixed(all, 7)
}

// The number of a function type behind others.
#[cycle(hash)]
fn hash_function(hash: u64, function: &FunctionType) -> u64 {
    let result = hash_type(hash, &function.result);
    let required = hash_types(result, &function.required);
    let optional = hash_types(required, &function.optional);
    hash_named(optional, &function.named)
}

// The number of named parameters behind others.
#[cycle(hash)]
fn hash_named(hash: u64, named: &[NamedType]) -> u64 {
    let mut all = hash;
    for one in named {
        all = hash_type(mixed(all, one.name.0), &one.of);
    }
    mixed(all, 8)
}

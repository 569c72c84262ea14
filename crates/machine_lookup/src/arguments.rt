// What is given to a call against formal parameters.
ghost use Rattle.std.specs.Prelude.{◌≡◌, ◌≤◌, nat_eq, map, length, slice_index_or};
ghost use Rattle.std.specs.List.{list_any};
ghost use Rattle.core_program.specs.ProgramView as v;
ghost use Rattle.core_program.specs.View as w;
ghost use Rattle.evaluation.specs.Classes.{function_at};
ghost use Rattle.evaluation.specs.Arguments.{given, is_required, is_named, required_count, positional_count, takes_name, names_fit, named_value, value_for, fit, fits, one_if};

use crate::program::function_at;
use core_program::program::{CoreProgram, Parameter};
use dart_base::name::Name;
use dart_ir::kind::Shape;
use dart_ir::value::Value;

/// Whether what is given fits the parameters of a function; a function that isn't there has none.
#[inline(always)]
pub fn fits(program: &CoreProgram, function: u32, values: &[Value], names: &[Name]) -> bool
    ensures { result ≡ fits (function_at (v.program program.now) function) (given (w.names names.now) values.now) }
{
    match function_at(program, function) {
        None => fit(&[], values, names),
        Some(found) => fit(found.parameters.as_slice(), values, names),
    }
}

#[inline(always)]
fn fit(parameters: &[Parameter], values: &[Value], names: &[Name]) -> bool
    ensures { result ≡ fit (map v.parameter parameters.now) (given (w.names names.now) values.now) }
{
    let placed = values.len().saturating_sub(names.len());
    required_count(parameters) <= placed
        && (placed <= positional_count(parameters) && names_fit(parameters, names))
}

fn required_count(parameters: &[Parameter]) -> usize
    ensures count { result ≡ required_count (map v.parameter parameters.now) }
    ensures most { result ≤ length parameters.now }
{
    match parameters.split_first() {
        None => 0,
        Some((first, rest)) => one_if(is_required(first.shape)) + required_count(rest),
    }
}

fn positional_count(parameters: &[Parameter]) -> usize
    ensures count { result ≡ positional_count (map v.parameter parameters.now) }
    ensures most { result ≤ length parameters.now }
{
    match parameters.split_first() {
        None => 0,
        Some((first, rest)) => one_if(!is_named(first.shape)) + positional_count(rest),
    }
}

fn one_if(counts: bool) -> usize
    ensures count { result ≡ one_if counts }
    ensures most { result ≤ 1 }
{
    if counts { 1 } else { 0 }
}

fn is_required(shape: Shape) -> bool
    ensures { result ≡ is_required shape }
{
    match shape {
        Shape::Required => true,
        _ => false,
    }
}

fn is_named(shape: Shape) -> bool
    ensures { result ≡ is_named shape }
{
    match shape {
        Shape::Named => true,
        _ => false,
    }
}

fn names_fit(parameters: &[Parameter], names: &[Name]) -> bool
    ensures { result ≡ names_fit (map v.parameter parameters.now) (w.names names.now) }
{
    match names.split_first() {
        None => true,
        Some((first, rest)) => {
            takes_name(parameters, *first)
                && (!is_among(rest, *first) && names_fit(parameters, rest))
        }
    }
}

fn takes_name(parameters: &[Parameter], name: Name) -> bool
    ensures { result ≡ takes_name (map v.parameter parameters.now) name.0 }
{
    match parameters.split_first() {
        None => false,
        Some((first, rest)) => {
            (is_named(first.shape) && first.name.0 == name.0) || takes_name(rest, name)
        }
    }
}

fn is_among(names: &[Name], name: Name) -> bool
    ensures { result ≡ list_any (nat_eq name.0) (w.names names.now) }
{
    match names.split_first() {
        None => false,
        Some((first, rest)) => name.0 == first.0 || is_among(rest, name),
    }
}

/// What the parameter of the number is bound to.
#[inline(always)]
pub fn value_for(values: &[Value], names: &[Name], index: u32, parameter: &Parameter) -> Value
    ensures { result ≡ value_for (given (w.names names.now) values.now) index (v.parameter parameter.now) }
{
    let placed = values.len().saturating_sub(names.len());
    match parameter.shape {
        Shape::Named => named_value(names, &values[placed..], parameter),
        _ => placed_value(&values[..placed], index as usize, parameter.default),
    }
}

#[inline(always)]
fn placed_value(values: &[Value], index: usize, default: Value) -> Value
    ensures { result ≡ slice_index_or values.now index default }
{
    if index < values.len() {
        values[index]
    } else {
        default
    }
}

fn named_value(names: &[Name], values: &[Value], parameter: &Parameter) -> Value
    ensures { result ≡ named_value (w.names names.now) values.now (v.parameter parameter.now) }
{
    let Some((name, other_names)) = names.split_first() else {
        return parameter.default;
    };
    let Some((value, other_values)) = values.split_first() else {
        return parameter.default;
    };
    if name.0 == parameter.name.0 {
        return *value;
    }
    named_value(other_names, other_values, parameter)
}

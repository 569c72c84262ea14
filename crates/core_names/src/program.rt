// Whether the names in a program are numbers of its table.
ghost use Rattle.std.specs.Prelude.{◌≡◌, ◌↔◌, IsTrue, length, map};
ghost use Rattle.std.specs.List.{flat_map};
ghost use Rattle.core_program.specs.ProgramView as pv;
ghost use Rattle.core_names.specs.Names.{class_names, member_names, parameter_names, function_names, static_names, site_names, program_names};
ghost use Rattle.core_names.specs.Within.{AreWithin, are_below};

use crate::form::is_part_within;
use crate::types::{
    are_bounds_within, are_types_within, is_function_type_within, is_optional_type_within,
};
use core_program::program::{CoreProgram, Function, Parameter, Site, StaticVar};
use dart_ir::class::{ClassInfo, MemberInfo};

/// Whether each name in the program is a name of its table. Takes no memory.
#[tactic(auto, using(crate::proofs::Below::below_decides))]
pub fn are_within(program: &CoreProgram) -> bool
    ensures { IsTrue result ↔ AreWithin (length program.now.names) (pv.program program.now) }
{
    is_program_within(program, program.names.count())
}

#[tactic(auto, using(crate::proofs::Below::all_append))]
fn is_program_within(program: &CoreProgram, count: u32) -> bool
    ensures { result ≡ are_below count (program_names (pv.program program.now)) }
{
    are_classes_within(&program.classes.classes, count)
        && are_members_within(&program.classes.members, count)
        && are_functions_within(&program.functions, count)
        && are_statics_within(&program.statics, count)
        && are_sites_within(&program.sites, count)
}

fn are_classes_within(classes: &[ClassInfo], count: u32) -> bool
    ensures { result ≡ are_below count (flat_map class_names (map pv.class classes.now)) }
{
    for one in classes {
        if !is_class_within(one, count) {
            return false;
        }
    }
    true
}

#[tactic(auto, using(crate::proofs::Below::listed))]
fn is_class_within(class: &ClassInfo, count: u32) -> bool
    ensures { result ≡ are_below count (class_names (pv.class class.now)) }
{
    class.name.0 < count
        && are_bounds_within(&class.bounds, count)
        && is_optional_type_within(&class.superclass, count)
        && are_types_within(&class.interfaces, count)
}

fn are_members_within(members: &[MemberInfo], count: u32) -> bool
    ensures { result ≡ are_below count (flat_map member_names (map pv.member members.now)) }
{
    for one in members {
        if !is_member_within(one, count) {
            return false;
        }
    }
    true
}

fn is_member_within(member: &MemberInfo, count: u32) -> bool
    ensures { result ≡ are_below count (member_names (pv.member member.now)) }
{
    member.name.0 < count && is_function_type_within(&member.signature, count)
}

fn are_functions_within(functions: &[Function], count: u32) -> bool
    ensures { result ≡ are_below count (flat_map function_names (map pv.function functions.now)) }
{
    for one in functions {
        if !is_function_within(one, count) {
            return false;
        }
    }
    true
}

fn is_function_within(function: &Function, count: u32) -> bool
    ensures { result ≡ are_below count (function_names (pv.function function.now)) }
{
    function.name.0 < count
        && are_parameters_within(&function.parameters, count)
        && is_function_type_within(&function.signature, count)
        && is_part_within(&function.body, count)
}

fn are_parameters_within(parameters: &[Parameter], count: u32) -> bool
    ensures { result ≡ are_below count (flat_map parameter_names (map pv.parameter parameters.now)) }
{
    for one in parameters {
        if one.name.0 >= count {
            return false;
        }
    }
    true
}

fn are_statics_within(statics: &[StaticVar], count: u32) -> bool
    ensures { result ≡ are_below count (flat_map static_names (map pv.static statics.now)) }
{
    for one in statics {
        if !is_static_within(one, count) {
            return false;
        }
    }
    true
}

fn is_static_within(variable: &StaticVar, count: u32) -> bool
    ensures { result ≡ are_below count (static_names (pv.static variable.now)) }
{
    variable.name.0 < count && is_part_within(&variable.init, count)
}

fn are_sites_within(sites: &[Site], count: u32) -> bool
    ensures { result ≡ are_below count (flat_map site_names (map pv.site sites.now)) }
{
    for one in sites {
        if !is_optional_type_within(&one.required, count) {
            return false;
        }
    }
    true
}

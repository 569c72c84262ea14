// The classes of a program as they are declared.
ghost use Rattle.std.specs.Prelude.{◌≡◌, ◌<◌, ◌^◌, List, ℕ, IfOk, length, map};
ghost use Rattle.lower_added.specs.Written.{written};
ghost use Rattle.lower_table.specs.Made.{written_made};
ghost use Rattle.lower_table.specs.Rows.{class_declarations};
ghost use Rattle.scope_program.specs.declared.class.ClassScope.{ClassScope};

use lower_added::written::{Written, written_class};
use lower_leaf::fault::Want;
use scope_program::class::ClassScope;
use scope_program::program::ProgramScopes;
use std::alloc::Global;

/// The numbers of the declarations of classes.
pub fn class_declarations(alloc: Global, classes: &[ClassScope]) -> Result<Vec<Option<u32>>, Want>
    ensures { IfOk result (λ made. made.items ≡ class_declarations (map (λ (c : ClassScope). c.declaration) classes.now)) }
{
    let mut made = Vec::new(alloc);
    for class in classes {
        made.push(Some(class.declaration))?;
    }
    Ok(made)
}

/// Which classes are written as mixin applications (ECMA-408, 12.1 Mixin Application).
pub fn mixed(alloc: Global, classes: &[ClassScope]) -> Result<Vec<bool>, Want>
    ensures { IfOk result (λ made. made.items ≡ map (λ (c : ClassScope). c.is_mixed) classes.now) }
{
    let mut made = Vec::new(alloc);
    for class in classes {
        made.push(class.is_mixed)?;
    }
    Ok(made)
}

fn class_written(alloc: Global, scopes: &ProgramScopes, class: &ClassScope) -> Result<Written, Want>
    requires { length scopes.now.numbered.items < 2 ^ 32 }
    ensures { IfOk result (λ made. written scopes.now.kept made ≡ written_made scopes.now class.now) }
{
    if class.declaration as usize >= scopes.numbered.len() {
        return Err(Want);
    }
    written_class(
        alloc,
        &scopes.numbered,
        class.declaration,
        class.accessors,
        class.has_constructor,
        &class.ways,
    )
}

/// What each class writes.
pub fn all_written(alloc: Global, scopes: &ProgramScopes) -> Result<Vec<Written>, Want>
    requires { length scopes.now.numbered.items < 2 ^ 32 }
    ensures { IfOk result (λ made. map (written scopes.now.kept) made.items ≡ map (written_made scopes.now) scopes.now.classes.items) }
{
    let mut made = Vec::new(alloc);
    for class in &scopes.classes {
        made.push(class_written(alloc, scopes, class)?)?;
    }
    Ok(made)
}

// Laws of namespaces: what holds of every list of libraries.
ghost use Rattle.std.specs.Prelude.{◌≡◌, ℕ, List, Option};
ghost use Rattle.dart_base.specs.declared.name.Name.{Name};
ghost use Rattle.scope_space.specs.declared.bound.Binding.{Binding};
ghost use Rattle.scope_space.specs.declared.bound.Bound.{Bound};
ghost use Rattle.scope_space.specs.declared.library.Library.{Library};
ghost use Rattle.scope_space.specs.Namespace.{IsBound, IsBinding};

/// A name is bound to one thing in a namespace.
pub fn bound_once()
    ensures { (libraries : List Library) (at : ℕ) (prefix : Option Name) (name : ℕ) (one other : Bound)
        → IsBound libraries at prefix name one → IsBound libraries at prefix name other → one ≡ other }
{}

/// A name means one thing in a library.
pub fn means_once()
    ensures { (libraries : List Library) (at name : ℕ) (one other : Binding)
        → IsBinding libraries at name one → IsBinding libraries at name other → one ≡ other }
{}

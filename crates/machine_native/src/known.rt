// What natives read of a program.
ghost use Rattle.std.specs.Prelude.{◌≡◌};
ghost use Rattle.native_object.specs.ShownView.{around};
ghost use Rattle.machine_frame.specs.Natives.{read_of};

use machine_frame::around::Around;
use native_object::known::KnownClasses;
use native_object::shown;

/// What natives read of the program that runs.
#[inline(always)]
pub fn read_of<'a>(a: Around<'a>) -> shown::Around<'a>
    ensures { around result ≡ read_of a.entry }
{
    shown::Around {
        literals: a.program.core().literals.as_slice(),
        names: &a.program.core().names,
        classes: a.program.core().classes.classes.as_slice(),
        known: KnownClasses {
            null: a.setup.known.null_class,
            boolean: a.setup.known.bool_class,
            integer: a.setup.known.int_class,
            string: a.setup.known.string_class,
            list: a.setup.known.list_class,
            function: a.program.core().classes.function,
            type_class: a.setup.known.type_class,
            send_port: a.setup.known.send_port_class,
            receive_port: a.setup.known.receive_port_class,
        },
    }
}

// What a native does where it changes no object that stands in the store.
ghost use Rattle.std.specs.Prelude.{◌≡◌, pos, ◌^◌, ◌<◌, IfOk, OnErr};
ghost use Rattle.dart_ir.specs.Object.{heap_object};
ghost use Rattle.native_base.specs.Plan as spec;
ghost use Rattle.native_base.specs.Planned.{planned};

use dart_ir::kind::ThrowKind;
use dart_ir::native::Answer;
use dart_ir::object::Object;
use dart_ir::value::{Value, integer_value};
use dart_store::store::{Store, StoreFault};

/// What such a native does. Contracts see it by `planned` of specs/Planned.antt.
#[derive(Drop)]
pub enum Planned {
    Answers(Answer),
    /// It adds the object, which is the answer.
    Makes(Object),
}

/// It throws an exception of the class, whose message is null.
pub fn throw(kind: ThrowKind) -> Planned
    ensures { planned result ≡ spec.throw kind }
{
    Planned::Answers(Answer::Throw(kind))
}

/// It answers the value.
pub fn answer(value: Value) -> Planned
    ensures { planned result ≡ spec.value value }
{
    Planned::Answers(Answer::Value(value))
}

/// It answers the integer.
pub fn number(number: i128) -> Planned
    ensures { planned result ≡ spec.number number }
{
    answer(integer_value(number))
}

/// Does what the native does. Full exactly where the object's cost passes the limit; an `Err` changes nothing.
pub fn carry_out(plan: Planned, store: &mut Store) -> Result<Answer, StoreFault>
    ensures done { IfOk result (λ answer. spec.outcome store.old (planned plan) ≡ spec.done answer store.new) }
    ensures full { result ≡ Err StoreFault.Full → spec.outcome store.old (planned plan) ≡ spec.full }
    ensures refused { OnErr result (store.new ≡ store.old) }
{
    match plan {
        Planned::Answers(answer) => Ok(answer),
        Planned::Makes(object) => {
            let r = store.add(object)?;
            Ok(Answer::Value(Value::At(r)))
        }
    }
}

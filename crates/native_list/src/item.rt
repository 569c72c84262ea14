// Items that are read and written.
ghost use Rattle.std.specs.Prelude.{◌≡◌, IfOk, OnErr, Err};
ghost use Rattle.native_base.specs.Plan.{answers, needs, outcome, done, full as no_room};
ghost use Rattle.native_list.specs.List as spec;

use crate::room::item_number;
use dart_ir::kind::ThrowKind;
use dart_ir::native::Answer;
use dart_ir::number::Ref;
use dart_ir::value::Value;
use dart_store::store::{Store, StoreFault};
use native_base::argument::place;

/// The item at an index.
pub fn item(store: &Store, r: Ref, index: i128) -> Result<Answer, StoreFault>
    ensures done { IfOk result (λ answer. answers answer ≡ spec.item store.now r.0 index) }
    ensures memory { result ≡ Err StoreFault.Full → ⊥ }
{
    match place(store.length(r), index) {
        Some(at) => {
            let number = item_number(at)?;
            Ok(Answer::Value(store.field(r, number)))
        }
        None => Ok(Answer::Throw(ThrowKind::RangeError)),
    }
}

/// Puts a value in the place of the item at an index.
pub fn item_set(store: &mut Store, r: Ref, index: i128, value: Value) -> Result<Answer, StoreFault>
    ensures done { IfOk result (λ answer. outcome store.old (spec.item_set store.old r.0 value index) ≡ done answer store.new) }
    ensures memory { result ≡ Err StoreFault.Full → ⊥ }
    ensures refused { OnErr result (store.new ≡ store.old) }
{
    match place(store.length(r), index) {
        Some(at) => {
            let number = item_number(at)?;
            store.set_field(r, number, value);
            Ok(Answer::Value(Value::Null))
        }
        None => Ok(Answer::Throw(ThrowKind::RangeError)),
    }
}

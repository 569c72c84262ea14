// A store with a few literals, and calls on it. No function here has a contract, so what it does is proved once, and tests know
// nothing of it.

use dart_base::name::Name;
use dart_base::names::Names;
use dart_base::place::Place;
use dart_base::units::Units;
use dart_ir::class::ClassInfo;
use dart_ir::kind::ThrowKind;
use dart_ir::native::{Answer, NativeId};
use dart_ir::number::{ClassId, Ref};
use dart_ir::object::Object;
use dart_ir::types::TypeRef;
use dart_ir::value::{Value, integer_value};
use dart_native::native::call;
use dart_store::store::{Store, StoreFault};
use dart_store::view::ObjectView;
use native_object::known::KnownClasses;
use native_object::shown::Around;
use native_steps::steps::steps;
use std::alloc::{AllocError, Global};
use std::process::Abort;
use std::test::Fail;

pub const NONE: u32 = 0;

pub const ABC: u32 = 1;

pub const ABCABC: u32 = 2;

pub const B: u32 = 3;

pub const GREATEST: u32 = 4;

pub const ABOVE: u32 = 5;

pub const LEAST: u32 = 6;

pub const BELOW: u32 = 7;

pub const MINUS: u32 = 8;

pub const NO_NUMBER: u32 = 9;

pub const ZEROS: u32 = 10;

pub const ABD: u32 = 11;

pub const SEVENTEEN: u32 = 12;

const LITERALS: [&[u8]; 13] = [
    b"",
    b"abc",
    b"abcabc",
    b"b",
    b"170141183460469231731687303715884105727",
    b"170141183460469231731687303715884105728",
    b"-170141183460469231731687303715884105728",
    b"-170141183460469231731687303715884105729",
    b"-",
    b"12a",
    b"-007",
    b"abd",
    b"abcdefghijklmnopq",
];

const CLASSES: [&str; 11] = [
    "Object",
    "Null",
    "bool",
    "int",
    "String",
    "List",
    "Function",
    "Type",
    "SendPort",
    "ReceivePort",
    "_Pair@2",
];

/// The class `_Pair`, with two type parameters.
pub const PAIR: ClassId = ClassId(10);

pub const INT: ClassId = ClassId(3);

pub const LIST: ClassId = ClassId(5);

/// A value in a table.
#[derive(Clone, Copy, Debug)]
pub enum Given {
    Nothing,
    True,
    Int(i128),
    /// A literal.
    Text(u32),
    /// The first object.
    First,
}

/// An answer in a table.
#[derive(Clone, Copy, Debug)]
pub enum Due {
    Null,
    Int(i128),
    /// A literal.
    Text(u32),
    Throws(ThrowKind),
    IntegerLimit,
}

/// A native, its three arguments, and its answer.
pub type Row = (NativeId, Given, Given, Given, Due);

fn value(given: Given) -> Value {
    match given {
        Given::Nothing => Value::Null,
        Given::True => Value::Bool(true),
        Given::Int(number) => integer_value(number),
        Given::Text(index) => Value::Literal(index),
        Given::First => FIRST,
    }
}

fn answer(due: Due) -> Answer {
    match due {
        Due::Null => NULL,
        Due::Int(number) => Answer::Value(integer_value(number)),
        Due::Text(index) => Answer::Value(Value::Literal(index)),
        Due::Throws(kind) => Answer::Throw(kind),
        Due::IntegerLimit => Answer::IntegerLimit,
    }
}

/// Makes each call in turn, and compares its answer.
pub fn check_each(rt: &impl Abort, w: &mut World, rows: &[Row]) -> Result<(), StoreFault> {
    for (native, this, x, y, due) in rows {
        let answered = w.call_given(*native, *this, *x, *y)?;
        assert_eq!(rt; answered, answer(*due), "{native:?} {this:?} {x:?} {y:?}");
    }
    Ok(())
}

/// Makes each call in turn, for none of which there is room.
pub fn refuse_each(rt: &impl Abort, w: &mut World, rows: &[(NativeId, Given, Given, Given)]) {
    for (native, this, x, y) in rows {
        let is_refused = w.has_no_room(*native, *this, *x, *y);
        assert!(rt; is_refused, "{native:?} {this:?} {x:?} {y:?}");
    }
}

/// What natives are called on.
#[derive(Drop)]
pub struct World {
    pub alloc: Global,
    pub literals: Vec<Units>,
    pub names: Names,
    pub classes: Vec<ClassInfo>,
    pub store: Store,
}

fn class(alloc: Global, name: Name) -> ClassInfo {
    ClassInfo {
        name,
        library: 0,
        place: Place {
            unit: 0,
            line: 1,
            column: 1,
        },
        bounds: Vec::new(alloc),
        superclass: None,
        interfaces: Vec::new(alloc),
        is_abstract: false,
        decl: None,
        fields: 0,
        members: Vec::new(alloc),
        callable: false,
    }
}

/// A world whose store has so many units.
pub fn new_world(alloc: Global, limit: u32) -> Result<World, AllocError> {
    let mut literals = Vec::new(alloc);
    for text in LITERALS {
        literals.push(units_of(alloc, text)?)?;
    }
    let mut names = Names::new(alloc);
    let mut classes = Vec::new(alloc);
    for text in CLASSES {
        if names.count() < 100 {
            let name = names.intern(text)?;
            classes.push(class(alloc, name))?;
        }
    }
    Ok(World {
        alloc,
        literals,
        names,
        classes,
        store: Store::new(alloc, Vec::new(alloc), u64::from(limit)),
    })
}

/// The units of an ASCII text.
pub fn units_of(alloc: Global, text: &[u8]) -> Result<Units, AllocError> {
    let mut units = Units::new(alloc);
    for byte in text {
        units.push(u16::from(*byte))?;
    }
    Ok(units)
}

fn known() -> KnownClasses {
    KnownClasses {
        null: ClassId(1),
        boolean: ClassId(2),
        integer: INT,
        string: ClassId(4),
        list: LIST,
        function: ClassId(6),
        type_class: ClassId(7),
        send_port: ClassId(8),
        receive_port: ClassId(9),
    }
}

impl World {
    fn around(&self) -> Around<'_> {
        Around {
            literals: self.literals.as_slice(),
            names: &self.names,
            classes: self.classes.as_slice(),
            known: known(),
        }
    }

    /// How many steps a native takes.
    pub fn steps(&self, native: NativeId, this: Given, x: Given, y: Given) -> u64 {
        let args = [value(this), value(x), value(y)];
        steps(native, &args, &self.around(), &self.store)
    }

    /// The units that are taken.
    pub fn used(&self) -> u64 {
        self.store.used()
    }

    /// How many items a list has.
    pub fn length(&self, list: Ref) -> usize {
        self.store.length(list)
    }

    /// A new object.
    pub fn add(&mut self, object: Object) -> Result<Value, StoreFault> {
        Ok(Value::At(self.store.add(object)?))
    }

    /// What a native answers in a table.
    pub fn call_given(
        &mut self,
        native: NativeId,
        this: Given,
        x: Given,
        y: Given,
    ) -> Result<Answer, StoreFault> {
        self.call(native, &[value(this), value(x), value(y)])
    }

    /// Whether there is no room for what a native makes.
    pub fn has_no_room(&mut self, native: NativeId, this: Given, x: Given, y: Given) -> bool {
        match self.call_given(native, this, x, y) {
            Err(StoreFault::Full) => true,
            Ok(_) | Err(StoreFault::Memory) => false,
        }
    }

    /// Whether a native makes a string of this ASCII text.
    pub fn makes_text(
        &mut self,
        native: NativeId,
        this: Given,
        x: Given,
        y: Given,
        wanted: &[u8],
    ) -> Result<bool, StoreFault> {
        let made = self.call_given(native, this, x, y)?;
        Ok(self.is_text(made, wanted))
    }

    // What a native answers, for a factory with these type arguments.
    fn make(
        &mut self,
        native: NativeId,
        types: &[TypeRef],
        args: &[Value],
    ) -> Result<Answer, StoreFault> {
        let around = Around {
            literals: self.literals.as_slice(),
            names: &self.names,
            classes: self.classes.as_slice(),
            known: known(),
        };
        call(self.alloc, native, types, args, &around, &mut self.store)
    }

    /// A new list of integers.
    pub fn make_list(&mut self) -> Result<Answer, Fail> {
        let mut types = Vec::new(self.alloc);
        types.push(TypeRef::Class(INT, Vec::new(self.alloc)))?;
        Ok(self.make(NativeId::ListNew, &types, &[])?)
    }

    /// What a native answers.
    pub fn call(&mut self, native: NativeId, args: &[Value]) -> Result<Answer, StoreFault> {
        self.make(native, &[], args)
    }

    /// Whether an answer is a string of this ASCII text.
    pub fn is_text(&self, answer: Answer, text: &[u8]) -> bool {
        let Answer::Value(Value::At(r)) = answer else {
            return false;
        };
        match self.store.get(r) {
            Some(ObjectView::Text(units)) => same(units, text),
            _ => false,
        }
    }

    /// Whether an answer is a new list, fixed or not, of so many items.
    pub fn is_list(&self, answer: Answer, count: usize, is_fixed: bool) -> bool {
        let Answer::Value(Value::At(r)) = answer else {
            return false;
        };
        match self.store.get(r) {
            Some(ObjectView::List { args, items, fixed }) => {
                args.len() == 1 && items.len() == count && fixed == is_fixed
            }
            _ => false,
        }
    }
}

fn same(units: &[u16], text: &[u8]) -> bool {
    if units.len() != text.len() {
        return false;
    }
    for (unit, byte) in units.iter().zip(text) {
        if *unit != u16::from(*byte) {
            return false;
        }
    }
    true
}

/// The object that an answer is.
pub fn object(answer: Answer) -> Value {
    match answer {
        Answer::Value(value) => value,
        _ => Value::Null,
    }
}

/// An integer.
pub fn int(number: i128) -> Value {
    integer_value(number)
}

/// An answer that is an integer.
pub fn is(number: i128) -> Answer {
    Answer::Value(integer_value(number))
}

/// A literal.
pub fn text(index: u32) -> Value {
    Value::Literal(index)
}

/// The answer null.
pub const NULL: Answer = Answer::Value(Value::Null);

/// The first object.
pub const FIRST: Value = Value::At(Ref(0));

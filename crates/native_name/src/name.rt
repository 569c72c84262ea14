// Natives by name.
ghost use Rattle.std.specs.Prelude.{◌≡◌, Some, find};
ghost use Rattle.dart_ir.specs.declared.native.NativeId as id;
ghost use Rattle.native_name.specs.Name as spec;

use dart_ir::native::NativeId;

/// The class that declares a native, or no text for a function of the library.
pub fn class_text(native: NativeId) -> &'static [u8]
    ensures { result.now ≡ spec.class_text native }
{
    match native {
        NativeId::Identical | NativeId::Print => b"",
        NativeId::ObjectEqual
        | NativeId::ObjectHashCode
        | NativeId::ObjectRuntimeType
        | NativeId::ObjectToString => b"Object",
        NativeId::NumAdd
        | NativeId::NumSubtract
        | NativeId::NumMultiply
        | NativeId::NumDivide
        | NativeId::NumTruncatingDivide
        | NativeId::NumModulo
        | NativeId::NumNegate
        | NativeId::NumLess
        | NativeId::NumLessEqual
        | NativeId::NumGreater
        | NativeId::NumGreaterEqual
        | NativeId::NumCompareTo => b"num",
        NativeId::IntParse
        | NativeId::IntAnd
        | NativeId::IntOr
        | NativeId::IntXor
        | NativeId::IntComplement
        | NativeId::IntShiftLeft
        | NativeId::IntShiftRight => b"int",
        NativeId::StringFromCharCode
        | NativeId::StringLength
        | NativeId::StringIndex
        | NativeId::StringAdd
        | NativeId::StringCodeUnitAt
        | NativeId::StringSubstring
        | NativeId::StringIndexOf
        | NativeId::StringCompareTo => b"String",
        NativeId::ListNew
        | NativeId::ListLength
        | NativeId::ListSetLength
        | NativeId::ListIndex
        | NativeId::ListIndexSet
        | NativeId::ListAdd
        | NativeId::ListRemoveLast
        | NativeId::ListRemoveAt
        | NativeId::ListInsert => b"List",
        NativeId::IsolateSpawn => b"Isolate",
        NativeId::ReceivePortNew
        | NativeId::ReceivePortSendPort
        | NativeId::ReceivePortListen
        | NativeId::ReceivePortClose => b"ReceivePort",
        NativeId::SendPortSend => b"SendPort",
    }
}

/// The name under which a native is declared, as `length=` for a setter, `unary-` for `-` without
/// an operand, and no text for an unnamed factory (ECMA-408, 10.1.1 Operators, 10.3 Setters, 10.6.2
/// Factories).
pub fn member_text(native: NativeId) -> &'static [u8]
    ensures { result.now ≡ spec.member_text native }
{
    match native {
        NativeId::Identical => b"identical",
        NativeId::Print => b"_print",
        NativeId::ObjectEqual => b"==",
        NativeId::ObjectHashCode => b"hashCode",
        NativeId::ObjectRuntimeType => b"runtimeType",
        NativeId::ObjectToString => b"toString",
        NativeId::NumAdd | NativeId::StringAdd => b"+",
        NativeId::NumSubtract => b"-",
        NativeId::NumMultiply => b"*",
        NativeId::NumDivide => b"/",
        NativeId::NumTruncatingDivide => b"~/",
        NativeId::NumModulo => b"%",
        NativeId::NumNegate => b"unary-",
        NativeId::NumLess => b"<",
        NativeId::NumLessEqual => b"<=",
        NativeId::NumGreater => b">",
        NativeId::NumGreaterEqual => b">=",
        NativeId::NumCompareTo | NativeId::StringCompareTo => b"compareTo",
        NativeId::IntParse => b"parse",
        NativeId::IntAnd => b"&",
        NativeId::IntOr => b"|",
        NativeId::IntXor => b"^",
        NativeId::IntComplement => b"~",
        NativeId::IntShiftLeft => b"<<",
        NativeId::IntShiftRight => b">>",
        NativeId::StringFromCharCode => b"fromCharCode",
        NativeId::StringLength | NativeId::ListLength => b"length",
        NativeId::StringIndex | NativeId::ListIndex => b"[]",
        NativeId::StringCodeUnitAt => b"codeUnitAt",
        NativeId::StringSubstring => b"substring",
        NativeId::StringIndexOf => b"indexOf",
        NativeId::ListNew | NativeId::ReceivePortNew => b"",
        NativeId::ListSetLength => b"length=",
        NativeId::ListIndexSet => b"[]=",
        NativeId::ListAdd => b"add",
        NativeId::ListRemoveLast => b"removeLast",
        NativeId::ListRemoveAt => b"removeAt",
        NativeId::ListInsert => b"insert",
        NativeId::IsolateSpawn => b"spawn",
        NativeId::ReceivePortSendPort => b"sendPort",
        NativeId::ReceivePortListen => b"listen",
        NativeId::ReceivePortClose => b"close",
        NativeId::SendPortSend => b"send",
    }
}

/// All natives, in the order of the prelude.
pub fn natives() -> &'static [NativeId]
    ensures { result.now ≡ spec.natives }
{
    &[
        NativeId::Identical,
        NativeId::Print,
        NativeId::ObjectEqual,
        NativeId::ObjectHashCode,
        NativeId::ObjectRuntimeType,
        NativeId::ObjectToString,
        NativeId::NumAdd,
        NativeId::NumSubtract,
        NativeId::NumMultiply,
        NativeId::NumDivide,
        NativeId::NumTruncatingDivide,
        NativeId::NumModulo,
        NativeId::NumNegate,
        NativeId::NumLess,
        NativeId::NumLessEqual,
        NativeId::NumGreater,
        NativeId::NumGreaterEqual,
        NativeId::NumCompareTo,
        NativeId::IntParse,
        NativeId::IntAnd,
        NativeId::IntOr,
        NativeId::IntXor,
        NativeId::IntComplement,
        NativeId::IntShiftLeft,
        NativeId::IntShiftRight,
        NativeId::StringFromCharCode,
        NativeId::StringLength,
        NativeId::StringIndex,
        NativeId::StringAdd,
        NativeId::StringCodeUnitAt,
        NativeId::StringSubstring,
        NativeId::StringIndexOf,
        NativeId::StringCompareTo,
        NativeId::ListNew,
        NativeId::ListLength,
        NativeId::ListSetLength,
        NativeId::ListIndex,
        NativeId::ListIndexSet,
        NativeId::ListAdd,
        NativeId::ListRemoveLast,
        NativeId::ListRemoveAt,
        NativeId::ListInsert,
        NativeId::IsolateSpawn,
        NativeId::ReceivePortNew,
        NativeId::ReceivePortSendPort,
        NativeId::ReceivePortListen,
        NativeId::ReceivePortClose,
        NativeId::SendPortSend,
    ]
}

fn is_named(native: NativeId, class: &[u8], member: &[u8]) -> bool
    ensures { result ≡ spec.is_named class.now member.now native }
{
    class_text(native) == class && member_text(native) == member
}

// The first of the natives that a class declares under this name.
fn first_named(natives: &[NativeId], class: &[u8], member: &[u8]) -> Option<NativeId>
    ensures { result ≡ find (spec.is_named class.now member.now) natives.now }
{
    for native in natives {
        if is_named(*native, class, member) {
            return Some(*native);
        }
    }
    None
}

/// The native that a class of the prelude declares under this name, or `None` where there is none:
/// each is found by its own names. Takes no memory.
pub fn native_named(class: &[u8], member: &[u8]) -> Option<NativeId>
    ensures named { result ≡ spec.native_named class.now member.now }
    ensures each { (native : id.NativeId) → spec.native_named (spec.class_text native) (spec.member_text native) ≡ Some native }
{
    first_named(natives(), class, member)
}

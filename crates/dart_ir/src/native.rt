// The native functions: the external declarations of the prelude, in its order.

use crate::kind::ThrowKind;
use crate::value::Value;

/// What a native answers, beside what it does to the store.
#[derive(Clone, Copy, Debug, PartialEq, Eq)]
pub enum Answer {
    Value(Value),
    /// It throws an error or exception of this class, whose message is null.
    Throw(ThrowKind),
    /// An integer outside of 128 bits ends the turn.
    IntegerLimit,
    /// A double ends the turn.
    NeedsDouble,
}

/// A native function, named after its class and its declared name. Another one is also an external declaration of
/// the prelude and a row of the natives' table.
#[derive(Clone, Copy, Debug, PartialEq, Eq)]
pub enum NativeId {
    /// `identical`
    Identical,
    /// `_print`
    Print,
    /// `==` of `Object`
    ObjectEqual,
    /// `hashCode` of `Object`
    ObjectHashCode,
    /// `runtimeType` of `Object`
    ObjectRuntimeType,
    /// `toString` of `Object`
    ObjectToString,
    /// `+` of `num`
    NumAdd,
    /// `-` of `num`, with an operand
    NumSubtract,
    /// `*` of `num`
    NumMultiply,
    /// `/` of `num`
    NumDivide,
    /// `~/` of `num`
    NumTruncatingDivide,
    /// `%` of `num`
    NumModulo,
    /// `-` of `num`, without an operand
    NumNegate,
    /// `<` of `num`
    NumLess,
    /// `<=` of `num`
    NumLessEqual,
    /// `>` of `num`
    NumGreater,
    /// `>=` of `num`
    NumGreaterEqual,
    /// `compareTo` of `num`
    NumCompareTo,
    /// `int.parse`
    IntParse,
    /// `&` of `int`
    IntAnd,
    /// `|` of `int`
    IntOr,
    /// `^` of `int`
    IntXor,
    /// `~` of `int`
    IntComplement,
    /// `<<` of `int`
    IntShiftLeft,
    /// `>>` of `int`
    IntShiftRight,
    /// the factory `String.fromCharCode`
    StringFromCharCode,
    /// `length` of `String`
    StringLength,
    /// `[]` of `String`
    StringIndex,
    /// `+` of `String`
    StringAdd,
    /// `codeUnitAt` of `String`
    StringCodeUnitAt,
    /// `substring` of `String`
    StringSubstring,
    /// `indexOf` of `String`
    StringIndexOf,
    /// `compareTo` of `String`
    StringCompareTo,
    /// the factory `List`
    ListNew,
    /// the getter `length` of `List`
    ListLength,
    /// the setter `length` of `List`
    ListSetLength,
    /// `[]` of `List`
    ListIndex,
    /// `[]=` of `List`
    ListIndexSet,
    /// `add` of `List`
    ListAdd,
    /// `removeLast` of `List`
    ListRemoveLast,
    /// `removeAt` of `List`
    ListRemoveAt,
    /// `insert` of `List`
    ListInsert,
    /// `Isolate.spawn`
    IsolateSpawn,
    /// the factory `ReceivePort`
    ReceivePortNew,
    /// `sendPort` of `ReceivePort`
    ReceivePortSendPort,
    /// `listen` of `ReceivePort`
    ReceivePortListen,
    /// `close` of `ReceivePort`
    ReceivePortClose,
    /// `send` of `SendPort`
    SendPortSend,
}

// The texts of `dart:core` and `dart:isolate`.

/// The library `dart:core`, in the language itself. What is `external` in it is done by natives; names that begin with `_`
/// are its own.
pub const CORE: &str = "library dart.core;
external bool identical(Object a, Object b);
external void _print(String s);
void print(Object object) { _print('$object'); }
class Object {
  external bool operator ==(Object other);
  external int get hashCode;
  external Type get runtimeType;
  external String toString();
  noSuchMethod(Invocation i) { throw new NoSuchMethodError(i.memberName); }
}
abstract class Null {}
abstract class bool {}
abstract class Function {}
abstract class Type {}
abstract class Comparable<T> { int compareTo(T other); }
abstract class num implements Comparable<num> {
  external num operator +(num o);
  external num operator -(num o);
  external num operator *(num o);
  external num operator /(num o);
  external int operator ~/(num o);
  external num operator %(num o);
  external num operator -();
  external bool operator <(num o);
  external bool operator <=(num o);
  external bool operator >(num o);
  external bool operator >=(num o);
  external int compareTo(num o);
  num abs() => this < 0 ? -this : this;
  bool get isNegative => this < 0;
}
abstract class double extends num {}
abstract class int extends num {
  external static int parse(String s);
  external int operator &(int o);
  external int operator |(int o);
  external int operator ^(int o);
  external int operator ~();
  external int operator <<(int o);
  external int operator >>(int o);
  bool get isEven => this % 2 == 0;
  bool get isOdd => this % 2 == 1;
}
abstract class String implements Comparable<String> {
  external factory String.fromCharCode(int c);
  external int get length;
  external String operator [](int i);
  external String operator +(String o);
  external int codeUnitAt(int i);
  external String substring(int start, [int end]);
  external int indexOf(String p, [int start]);
  external int compareTo(String o);
  bool get isEmpty => length == 0;
  bool get isNotEmpty => length != 0;
  bool contains(String p) => indexOf(p) >= 0;
  bool startsWith(String p) =>
      length >= p.length && substring(0, p.length) == p;
}
abstract class Iterator<E> { bool moveNext(); E get current; }
abstract class Iterable<E> {
  Iterator<E> get iterator;
  int get length { int n = 0; for (var e in this) n++; return n; }
  bool get isEmpty => !iterator.moveNext();
  bool get isNotEmpty => !isEmpty;
  bool contains(Object x) { for (var e in this) if (e == x) return true; return false; }
  void forEach(f) { for (var e in this) f(e); }
  List map(f) { var r = []; for (var e in this) r.add(f(e)); return r; }
  List<E> where(f) { var r = new List<E>(); for (var e in this) if (f(e)) r.add(e); return r; }
  fold(start, f) { var r = start; for (var e in this) r = f(r, e); return r; }
  bool any(f) { for (var e in this) if (f(e)) return true; return false; }
  bool every(f) { for (var e in this) if (!f(e)) return false; return true; }
  List<E> toList() { var r = new List<E>(); for (var e in this) r.add(e); return r; }
  String join([String separator = '']) {
    var r = ''; var first = true;
    for (var e in this) { r = first ? '$e' : '$r$separator$e'; first = false; }
    return r;
  }
}
class _ListIterator<E> implements Iterator<E> {
  final List<E> _list; int _at = -1;
  _ListIterator(this._list);
  bool moveNext() { if (_at < _list.length) _at++; return _at < _list.length; }
  E get current => _at >= 0 && _at < _list.length ? _list[_at] : null;
}
abstract class List<E> extends Iterable<E> {
  external factory List([int length]);
  external int get length;
  external void set length(int n);
  external E operator [](int i);
  external void operator []=(int i, E v);
  external void add(E v);
  external E removeLast();
  external E removeAt(int i);
  external void insert(int i, E v);
  Iterator<E> get iterator => new _ListIterator<E>(this);
  int indexOf(Object x) { for (var i = 0; i < length; i++) if (this[i] == x) return i; return -1; }
  void addAll(Iterable<E> xs) { for (var x in xs) add(x); }
  void clear() { length = 0; }
  String toString() => '[${join(', ')}]';
}
class Map<K, V> {
  final List<K> _keys = new List<K>(); final List<V> _values = new List<V>();
  int get length => _keys.length;
  bool get isEmpty => length == 0;
  bool get isNotEmpty => length != 0;
  V operator [](Object k) { var i = _keys.indexOf(k); return i < 0 ? null : _values[i]; }
  void operator []=(K k, V v) {
    var i = _keys.indexOf(k);
    if (i < 0) { _keys.add(k); _values.add(v); } else { _values[i] = v; }
  }
  bool containsKey(Object k) => _keys.indexOf(k) >= 0;
  V remove(Object k) {
    var i = _keys.indexOf(k); if (i < 0) return null;
    _keys.removeAt(i); return _values.removeAt(i);
  }
  Iterable<K> get keys => _keys.toList();
  Iterable<V> get values => _values.toList();
  void forEach(f) { for (var i = 0; i < length; i++) f(_keys[i], _values[i]); }
  String toString() { var r = []; forEach((k, v) { r.add('$k: $v'); }); return '{${r.join(', ')}}'; }
}
class StringBuffer {
  final List<String> _parts = [];
  void write(Object o) { _parts.add('$o'); }
  String toString() => _parts.join();
}
class StackTrace { String toString() => ''; }
class Invocation {
  String memberName; List positionalArguments; List _names; List _values; int _kind;
  Map get namedArguments { var m = new Map(); for (var i = 0; i < _names.length; i++) m[_names[i]] = _values[i]; return m; }
  bool get isMethod => _kind == 0;
  bool get isGetter => _kind == 1;
  bool get isSetter => _kind == 2;
  bool get isAccessor => _kind > 0;
}
class Exception {
  final message; Exception([this.message]);
  String toString() => message == null ? '$runtimeType' : '$runtimeType: $message';
}
class Error {
  final message; Error([this.message]);
  String toString() => message == null ? '$runtimeType' : '$runtimeType: $message';
}
class ArgumentError extends Error { ArgumentError([m]) : super(m); }
class RangeError extends Error { RangeError([m]) : super(m); }
class StateError extends Error { StateError([m]) : super(m); }
class UnsupportedError extends Error { UnsupportedError([m]) : super(m); }
class NoSuchMethodError extends Error { NoSuchMethodError([m]) : super(m); }
class CastError extends Error { CastError([m]) : super(m); }
class TypeError extends Error { TypeError([m]) : super(m); }
class NullThrownError extends Error { NullThrownError([m]) : super(m); }
class FallThroughError extends Error { FallThroughError([m]) : super(m); }
class CyclicInitializationError extends Error { CyclicInitializationError([m]) : super(m); }
class AbstractClassInstantiationError extends Error { AbstractClassInstantiationError([m]) : super(m); }
class MalformedTypeError extends Error { MalformedTypeError([m]) : super(m); }
class FormatException extends Exception { FormatException([m]) : super(m); }
class IntegerDivisionByZeroException extends Exception { IntegerDivisionByZeroException([m]) : super(m); }
";

/// The library `dart:isolate`, in the language itself. What is `external` in it is done by natives.
pub const ISOLATE: &str = "library dart.isolate;
abstract class Isolate { external static spawn(Function entry, message); }
abstract class ReceivePort {
  external factory ReceivePort();
  external SendPort get sendPort;
  external void listen(Function f);
  external void close();
}
abstract class SendPort { external void send(message); }
";

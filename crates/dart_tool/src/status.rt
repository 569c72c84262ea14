// How a run of the tool ends, and why it refuses a program.
ghost use Rattle.std.specs.Prelude.{◌≡◌};
ghost use Rattle.dart_tool.specs.Status.{status_number, refusal_text, lexical_refusal, syntax_refusal, text_refusal, text_reason_refusal, reason_refusal, cause_refusal};

use dart_base::bytes::Bytes;
use dart_base::feature::Feature;
use dart_base::place::Place;
use dart_execute::cause::Cause;
use dart_front::fault::TextFault;
use dart_lex::lexer::LexFault;
use parse_unit::fault::ParseFault;
use scope_load::reason::Reason;
use scope_load::units::TextReason;

/// How a run of the tool ends. Another one is also a line of `status_number` in specs/Status.antt.
#[derive(Clone, Copy, Debug, PartialEq, Eq)]
pub enum Status {
    /// The command went through.
    Done,
    /// The words are no command.
    Usage,
    /// There is no file, or it isn't a program.
    Refused,
    /// An exception left the program.
    Uncaught,
    /// The program returned, or an exception left it, after a check had failed.
    CheckFailed,
    /// The program came to a limit of the language.
    Limit,
    /// A file could not be read.
    ReadFault,
    /// The output could not be written.
    WriteFault,
    /// Memory ran out.
    Memory,
}

impl Status {
    /// The number with which the process ends.
    pub fn number(self) -> u8
        ensures { result ≡ status_number self }
    {
        match self {
            Status::Done => 0,
            Status::Usage => 2,
            Status::Refused => 3,
            Status::Uncaught => 4,
            Status::CheckFailed => 5,
            Status::Limit => 6,
            Status::ReadFault => 7,
            Status::WriteFault => 8,
            Status::Memory => 9,
        }
    }
}

/// Why a file or a program is refused. Another one is also a line of `refusal_text` in specs/Status.antt.
#[derive(Drop)]
pub enum Refusal {
    /// There is no such file.
    NotFound,
    /// The file has too many bytes or lines, or its tokens too much weight.
    TooLarge,
    /// The file is UTF-8 up to this offset in bytes, and no further.
    NotUtf8(u64),
    /// No token begins here, or what begins here is not closed.
    BadToken(Place),
    /// The profile leaves out what begins here.
    LeftOut(Place, Feature),
    /// The integer here is above 2^127 - 1.
    IntegerTooLarge(Place),
    /// No unit has the tokens up to here.
    Syntax(Place),
    /// No unit that is not too deep has the tokens up to here.
    TooDeep(Place),
    /// The directive here names no unit, or another one than it may.
    BadDirective(Place),
    /// The program has too many files, or they have too much weight.
    ProgramTooLarge,
    /// The second declaration of this name in one scope stands here.
    Duplicate(Place, Bytes),
    /// There is no function to begin with.
    NoMain,
    /// A class is above itself, by the type here.
    CyclicClasses(Place),
    /// The type here is none that a class may have above it there.
    BadSuper(Place),
    /// The type here is no class that may be mixed in.
    BadMixin(Place),
    /// A type above a class has too many nodes, by the type here.
    TypesTooLarge(Place),
    /// The default value here is no literal.
    NotConstant(Place),
    /// The jump here has no target.
    BadLabel(Place),
    /// There is no such constructor, or it may not stand here.
    BadConstructor(Place),
    /// The cases of the switch here are neither all integers nor all strings.
    BadSwitch(Place),
    /// `this`, `super` or `rethrow` stands here where there is none.
    BadWord(Place),
    /// The list of parameters is too long here.
    TooManyParameters(Place),
    /// The program has what isn't built so far.
    NotBuilt,
}

impl Refusal {
    /// The refusal for a lexical reason, or None where it is being out of memory.
    pub fn of_lexis(fault: LexFault) -> Option<Refusal>
        ensures { result ≡ lexical_refusal fault }
    {
        match fault {
            LexFault::TooLarge => Some(Refusal::TooLarge),
            LexFault::NotUtf8(offset) => Some(Refusal::NotUtf8(offset)),
            LexFault::BadToken(place) => Some(Refusal::BadToken(place)),
            LexFault::LeftOut(place, feature) => Some(Refusal::LeftOut(place, feature)),
            LexFault::IntegerTooLarge(place) => Some(Refusal::IntegerTooLarge(place)),
            LexFault::Memory => None,
        }
    }

    /// The refusal for the parser's reason, or None where it is being out of memory.
    pub fn of_syntax(fault: ParseFault) -> Option<Refusal>
        ensures { result ≡ syntax_refusal fault }
    {
        match fault {
            ParseFault::LeftOut(place, feature) => Some(Refusal::LeftOut(place, feature)),
            ParseFault::Syntax(place) => Some(Refusal::Syntax(place)),
            ParseFault::TooDeep(place) => Some(Refusal::TooDeep(place)),
            ParseFault::Memory => None,
        }
    }

    /// The refusal of a text that is no unit, or None where memory ran out.
    pub fn of_text(fault: TextFault) -> Option<Refusal>
        ensures { result ≡ text_refusal fault }
    {
        match fault {
            TextFault::Lexis(fault) => Refusal::of_lexis(fault),
            TextFault::Syntax(fault) => Refusal::of_syntax(fault),
            TextFault::Memory => None,
        }
    }

    /// The refusal of a file whose text is no unit of a program.
    pub fn of_text_reason(reason: TextReason) -> Refusal
        ensures { result ≡ text_reason_refusal reason }
    {
        match reason {
            TextReason::TooLarge => Refusal::TooLarge,
            TextReason::NotUtf8(offset) => Refusal::NotUtf8(offset),
            TextReason::BadToken(place) => Refusal::BadToken(place),
            TextReason::LeftOut(place, feature) => Refusal::LeftOut(place, feature),
            TextReason::IntegerTooLarge(place) => Refusal::IntegerTooLarge(place),
            TextReason::Syntax(place) => Refusal::Syntax(place),
            TextReason::TooDeep(place) => Refusal::TooDeep(place),
        }
    }

    /// The refusal of a unit of a program.
    pub fn of_reason(reason: Reason) -> Refusal
        ensures { result ≡ reason_refusal reason }
    {
        match reason {
            Reason::NotFound => Refusal::NotFound,
            Reason::Text(reason) => Refusal::of_text_reason(reason),
            Reason::LeftOut(place, feature) => Refusal::LeftOut(place, feature),
            Reason::BadDirective(place) => Refusal::BadDirective(place),
        }
    }

    /// The refusal of a program whose units are loaded, for what is found at a place.
    pub fn of_cause(place: Place, cause: Cause) -> Refusal
        ensures { result ≡ cause_refusal place cause }
    {
        match cause {
            Cause::CyclicClasses => Refusal::CyclicClasses(place),
            Cause::BadSuper => Refusal::BadSuper(place),
            Cause::BadMixin => Refusal::BadMixin(place),
            Cause::TypesTooLarge => Refusal::TypesTooLarge(place),
            Cause::LeftOut(feature) => Refusal::LeftOut(place, feature),
            Cause::NotConstant => Refusal::NotConstant(place),
            Cause::BadLabel => Refusal::BadLabel(place),
            Cause::BadConstructor => Refusal::BadConstructor(place),
            Cause::BadSwitch => Refusal::BadSwitch(place),
            Cause::BadWord => Refusal::BadWord(place),
            Cause::TooManyParameters => Refusal::TooManyParameters(place),
        }
    }

    /// The kind as the line of a refusal shows it.
    pub fn text(&self) -> &'static [u8]
        ensures { result.now ≡ refusal_text self.now }
    {
        match self {
            Refusal::NotFound => b"NotFound",
            Refusal::TooLarge | Refusal::ProgramTooLarge | Refusal::TooManyParameters(_) => {
                b"TooLarge"
            }
            Refusal::NotUtf8(_) => b"NotUtf8",
            Refusal::BadToken(_) => b"BadToken",
            Refusal::LeftOut(_, _) => b"LeftOut",
            Refusal::IntegerTooLarge(_) => b"IntegerTooLarge",
            Refusal::Syntax(_) => b"Syntax",
            Refusal::TooDeep(_) => b"TooDeep",
            Refusal::BadDirective(_) => b"BadDirective",
            Refusal::Duplicate(_, _) => b"Duplicate",
            Refusal::NoMain => b"NoMain",
            Refusal::CyclicClasses(_) => b"CyclicClasses",
            Refusal::BadSuper(_) => b"BadSuper",
            Refusal::BadMixin(_) => b"BadMixin",
            Refusal::TypesTooLarge(_) => b"TypesTooLarge",
            Refusal::NotConstant(_) => b"NotConstant",
            Refusal::BadLabel(_) => b"BadLabel",
            Refusal::BadConstructor(_) => b"BadConstructor",
            Refusal::BadSwitch(_) => b"BadSwitch",
            Refusal::BadWord(_) => b"BadWord",
            Refusal::NotBuilt => b"NotBuilt",
        }
    }
}

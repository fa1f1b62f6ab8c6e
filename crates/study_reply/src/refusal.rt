//! Why a line is refused.
ghost use Rattle.std.specs.Prelude.{◌≡◌};
ghost use Rattle.study_reply.specs.Names.{fen_name, san_name, form_name, file_name, name_text, argument_of};

use study_command::SyntaxFault;
use study_material::Class;
use study_notation::{FenFault, SanFault};
use study_values::{FileFault, SourceFault};

/// Why a line is refused. The path of a broken shift is kept apart.
#[derive(Clone, Copy, Debug, PartialEq, Eq)]
pub enum Refusal {
    Form(SyntaxFault),
    NoPosition,
    NoStudy,
    OutOfMemory,
    PagedMode,
    NotAClass,
    NoSuchNode,
    Fen(FenFault),
    San(SanFault),
    RootNotAllowed,
    AlreadyFirst,
    IllegalMove,
    AlreadyThere(u16),
    TooDeep,
    TreeFull,
    TagText,
    NoTable(Class),
    MissingTable(Class),
    AlreadyHeld(Class),
    OtherClass(Class),
    NoFile,
    Device,
    File(FileFault),
    TableRead(SourceFault),
    TableReadPage(u32),
    DistanceTooLarge,
}

/// The argument after the name of a refusal.
#[derive(Clone, Copy, Debug, PartialEq, Eq)]
pub enum Argument {
    None,
    Class(Class),
    Number(u32),
}

impl Refusal {
    /// The argument after the name.
    pub fn argument(self) -> Argument
        ensures { result ≡ argument_of self }
    {
        match self {
            Refusal::AlreadyThere(place) => Argument::Number(place as u32),
            Refusal::NoTable(class)
            | Refusal::MissingTable(class)
            | Refusal::AlreadyHeld(class)
            | Refusal::OtherClass(class) => Argument::Class(class),
            Refusal::File(FileFault::Version(number)) => Argument::Number(number as u32),
            Refusal::File(FileFault::PageDamaged(number)) => Argument::Number(number),
            Refusal::TableReadPage(number) => Argument::Number(number),
            _ => Argument::None,
        }
    }

    /// The name in the reply, with a space if an argument follows.
    pub fn name(self) -> &'static [u8]
        ensures { result.now ≡ name_text self }
    {
        match self {
            Refusal::Form(fault) => form_name(fault),
            Refusal::NoPosition => b"NoPosition",
            Refusal::NoStudy => b"NoStudy",
            Refusal::OutOfMemory => b"OutOfMemory",
            Refusal::PagedMode => b"PagedMode",
            Refusal::NotAClass => b"NotAClass",
            Refusal::NoSuchNode => b"NoSuchNode",
            Refusal::Fen(fault) => fen_name(fault),
            Refusal::San(fault) => san_name(fault),
            Refusal::RootNotAllowed => b"RootNotAllowed",
            Refusal::AlreadyFirst => b"AlreadyFirst",
            Refusal::IllegalMove => b"IllegalMove",
            Refusal::AlreadyThere(_) => b"AlreadyThere ",
            Refusal::TooDeep => b"TooDeep",
            Refusal::TreeFull => b"TreeFull",
            Refusal::TagText => b"TagText",
            Refusal::NoTable(_) => b"NoTable ",
            Refusal::MissingTable(_) => b"MissingTable ",
            Refusal::AlreadyHeld(_) => b"AlreadyHeld ",
            Refusal::OtherClass(_) => b"OtherClass ",
            Refusal::NoFile => b"NoFile",
            Refusal::Device => b"Device",
            Refusal::File(fault) => file_name(fault),
            Refusal::TableRead(SourceFault::Device) => b"TableRead Device",
            Refusal::TableRead(SourceFault::Short) => b"TableRead Short",
            Refusal::TableReadPage(_) => b"TableRead Page ",
            Refusal::DistanceTooLarge => b"DistanceTooLarge",
        }
    }
}

fn form_name(fault: SyntaxFault) -> &'static [u8]
    ensures { result.now ≡ form_name fault }
{
    match fault {
        SyntaxFault::BadByte => b"BadByte",
        SyntaxFault::UnknownCommand => b"UnknownCommand",
        SyntaxFault::BadArguments => b"BadArguments",
        SyntaxFault::UnknownStipulation => b"UnknownStipulation",
        SyntaxFault::UnknownTag => b"UnknownTag",
    }
}

fn fen_name(fault: FenFault) -> &'static [u8]
    ensures { result.now ≡ fen_name fault }
{
    match fault {
        FenFault::FieldCount => b"FieldCount",
        FenFault::Placement => b"Placement",
        FenFault::TooManyMen => b"TooManyMen",
        FenFault::KingCount => b"KingCount",
        FenFault::PawnOnEndRank => b"PawnOnEndRank",
        FenFault::SideField => b"SideField",
        FenFault::OpponentInCheck => b"OpponentInCheck",
        FenFault::Castling => b"Castling",
        FenFault::EnPassantField => b"EnPassantField",
        FenFault::EnPassantImpossible => b"EnPassantImpossible",
        FenFault::Clock => b"Clock",
        FenFault::MoveNumber => b"MoveNumber",
    }
}

fn san_name(fault: SanFault) -> &'static [u8]
    ensures { result.now ≡ san_name fault }
{
    match fault {
        SanFault::NotSan => b"NotSan",
        SanFault::CastlingLeftOut => b"CastlingLeftOut",
        SanFault::NoSuchMove => b"NoSuchMove",
        SanFault::Ambiguous => b"Ambiguous",
    }
}

fn file_name(fault: FileFault) -> &'static [u8]
    ensures { result.now ≡ file_name fault }
{
    match fault {
        FileFault::Cut => b"Cut",
        FileFault::NotATable => b"NotATable",
        FileFault::Version(_) => b"Version ",
        FileFault::ClassUnknown => b"ClassUnknown",
        FileFault::HeaderDamaged => b"HeaderDamaged",
        FileFault::OutOfMemory => b"OutOfMemory",
        FileFault::PageDamaged(_) => b"PageDamaged ",
        FileFault::Padding => b"Padding",
        FileFault::TrailingBytes => b"TrailingBytes",
        FileFault::Device => b"Device",
    }
}

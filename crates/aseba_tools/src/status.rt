ghost use Rattle.std.specs.Prelude.{◌≡◌};
ghost use Rattle.aseba_tools.specs.StatusText.{HasShortHead, line_text, message_of, number_of};

use aseba_compile::Refusal;
use aseba_driver::Unwritten;
use aseba_words::{Mem, Name};

/// How a call of a tool ended.
#[derive(Debug, Drop)]
pub enum Status {
    /// The tool wrote all of its output.
    Done,
    /// The words are no command line.
    Usage,
    /// There is no file of this name.
    Absent { file: Name },
    /// A file or an input link could not be read.
    ReadFault,
    /// The source is not compiled.
    Refused(Refusal),
    /// The project file has a bad line, counted from 1.
    BadProject { line: u64 },
    /// The script or the recording has a bad line, counted from 1.
    BadScript { line: u64 },
    /// The output could not be written whole.
    WriteFault,
    /// Memory didn't suffice.
    Memory,
    /// The file of this name is longer than what is read.
    TooBig { file: Name },
    /// A frame at this byte of a stream is longer than frames may be.
    BadFrame { place: u64 },
    /// The link ended before enough nodes of this name had described themselves.
    NoNode { name: Name },
    /// No connection was made.
    DialFault,
    /// A link gave more bytes than are read of one.
    LongStream,
}

impl From<Mem> for Status {
    ghost use Rattle.aseba_tools.specs.declared.status.Status.TheVariants.{Memory};

    ghost from_gives = { λ _ status. status ≡ Memory };

    fn from(_error: Mem) -> Status {
        Status::Memory
    }
}

impl From<Unwritten> for Status {
    ghost use Rattle.std.specs.Prelude.{◌≡◌};
    ghost use Rattle.aseba_tools.specs.Unwritten.{status_of};

    ghost from_gives = { λ unwritten status. status ≡ status_of unwritten };

    fn from(unwritten: Unwritten) -> Status {
        match unwritten {
            Unwritten::WriteFault => Status::WriteFault,
            Unwritten::Mem => Status::Memory,
        }
    }
}

/// What the program ends with at a status: its number, and the line that is told.
#[derive(Clone, Copy, Debug)]
pub struct Row<'a> {
    pub number: u8,
    pub line: StatusLine<'a>,
}

/// The line of a status.
#[derive(Clone, Copy, Debug)]
pub enum StatusLine<'a> {
    /// There is none.
    Nothing,
    /// These words, with the line's end.
    Words(&'static str),
    /// A name behind some words.
    Name(&'static str, &'a Name),
    /// A number behind some words, at most 32 bytes of them.
    Number(&'static str, u64),
    /// Why a source isn't compiled.
    Refusal(&'a Refusal),
}

impl Status {
    /// The table of the statuses: of each its number and its line.
    pub fn row(&self) -> Row<'_>
        ensures number { result.number ≡ number_of self.now }
        ensures line { line_text result.line ≡ message_of self.now }
        ensures short { HasShortHead result.line }
    {
        match self {
            Status::Done => Row::new(0, StatusLine::Nothing),
            Status::Usage => Row::new(1, StatusLine::Words("aseba: bad command line\n")),
            Status::Absent { file } => Row::new(2, StatusLine::Name("aseba: no file ", file)),
            Status::ReadFault => Row::new(3, StatusLine::Words("aseba: read failed\n")),
            Status::Refused(refusal) => Row::new(4, StatusLine::Refusal(refusal)),
            Status::BadProject { line } => {
                Row::new(5, StatusLine::Number("aseba: project line ", *line))
            }
            Status::BadScript { line } => Row::new(
                6,
                StatusLine::Number("aseba: script line ", *line),
            ),
            Status::WriteFault => Row::new(7, StatusLine::Words("aseba: write failed\n")),
            Status::Memory => Row::new(8, StatusLine::Words("aseba: out of memory\n")),
            Status::TooBig { file } => Row::new(9, StatusLine::Name("aseba: too big ", file)),
            Status::BadFrame { place } => {
                Row::new(10, StatusLine::Number("aseba: bad frame at ", *place))
            }
            Status::NoNode { name } => Row::new(11, StatusLine::Name("aseba: no node ", name)),
            Status::DialFault => Row::new(12, StatusLine::Words("aseba: no connection\n")),
            Status::LongStream => Row::new(13, StatusLine::Words("aseba: stream too long\n")),
        }
    }

    /// The exit status of the program.
    pub fn number(&self) -> u8
        ensures { result ≡ number_of self.now }
    {
        self.row().number
    }
}

impl<'a> Row<'a> {
    fn new(number: u8, line: StatusLine<'a>) -> Row<'a>
        ensures number { result.number ≡ number }
        ensures line { result.line ≡ line.entry }
    {
        Row { number, line }
    }
}

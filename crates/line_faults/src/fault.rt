//! What can be wrong with a line, and how it is said.
use crate::Field;
use conn_model::Dialect;
use std::fmt;

/// What is wrong with the bytes of a line.
#[derive(Clone, Copy, Debug, PartialEq, Eq)]
pub enum Layout {
    NotUtf8,
    ByteOrderMark,
    CarriageReturn,
    NoLineFeed,
    Blank,
    LeadingSpace,
    Comment,
}

/// What is wrong with where a line stands among blocks.
#[derive(Clone, Copy, Debug, PartialEq, Eq)]
pub enum BlockFault<'a> {
    /// A line of this word doesn't stand in a block.
    NotInside(&'a str),
    /// A line of this word closes a block, and none is open.
    NoneOpen(&'a str),
    /// The open blocks are on one connection, and the line names another.
    OtherConnection { open: u32, named: &'a str },
    /// As many blocks are open as can be.
    TooDeep,
    /// The script ends with a block open on this connection.
    LeftOpen(u32),
}

/// What is said twice.
#[derive(Clone, Copy, Debug, PartialEq, Eq)]
pub enum Twice<'a> {
    Header,
    Url,
    Query(&'a str),
    Id(&'a str),
    /// A server, and the number of one of its items.
    Item(&'a str, &'a str),
    /// The same for one of whose rows a line above speaks.
    Run(&'a str, &'a str),
    Attempt(&'a str),
}

/// What there is too much of.
#[derive(Clone, Copy, Debug, PartialEq, Eq)]
pub enum Limit {
    Bytes,
    Commands,
    Loads,
    Text,
    QueryText,
    Url,
    Binds,
    RowLine,
    Values,
    Rows,
}

/// What is wrong with a field of a line. Words are those of the line.
#[derive(Clone, Copy, Debug, PartialEq, Eq)]
pub enum FieldFault<'a> {
    Missing(Field),
    Empty(Field),
    /// This can't stand in that field.
    Wrong(Field, &'a str),
    /// A number has a sign or zeros in front.
    Padded(&'a str),
    /// Something stands behind the last field.
    Behind(Field),
    /// Something stands behind a word that stands alone.
    BehindWord(&'a str),
}

/// Why a line can't stand where it does. Words are those of the line.
#[derive(Clone, Copy, Debug, PartialEq, Eq)]
pub enum LineFault<'a> {
    Layout(Layout),
    /// The first line is none that a script begins with.
    NoHeader,
    /// No line begins with this word; the second is the nearest with which one does.
    UnknownWord(&'a str, Option<&'static str>),
    Field(FieldFault<'a>),
    /// The text begins with no word of a statement.
    NoStatement,
    /// The text holds this mark.
    Mark(&'static str),
    /// A line of this word stands behind a command.
    BehindCommands(&'a str),
    /// The word is for servers of one dialect alone.
    OneDialect(&'a str, Dialect),
    /// The wish is for refusals of one code alone.
    EndWithoutDeadlock,
    Block(BlockFault<'a>),
    Twice(Twice<'a>),
    /// No line above declares the query of this number.
    Undeclared(&'a str),
    TooMuch(Limit),
    /// No reason was found.
    Unclear,
}

/// The characters of a word that are shown at most.
const MAX_SHOWN: usize = 40;

/// A word of a script as a sentence shows it: not more than its begin, and no character that a terminal would obey.
#[derive(Clone, Copy)]
struct Shown<'a>(&'a str);

impl fmt::Display for Shown<'_> {
    fn fmt<W: fmt::Write>(&self, f: &mut fmt::Formatter<W>) -> fmt::Result {
        for (k, c) in self.0.chars().enumerate() {
            if k >= MAX_SHOWN {
                return write!(f, "..");
            }
            if c.is_control() {
                write!(f, "{}", c.escape_unicode())?;
            } else {
                f.write_char(c)?;
            }
        }
        Ok(())
    }
}

impl fmt::Display for Layout {
    fn fmt<W: fmt::Write>(&self, f: &mut fmt::Formatter<W>) -> fmt::Result {
        match self {
            Layout::NotUtf8 => write!(f, "the line is not UTF-8"),
            Layout::ByteOrderMark => write!(f, "the script begins with a byte order mark"),
            Layout::CarriageReturn => write!(f, "the line ends with a carriage return"),
            Layout::NoLineFeed => write!(f, "the last line has no line feed"),
            Layout::Blank => write!(f, "the line is blank"),
            Layout::LeadingSpace => write!(f, "the line begins with a space"),
            Layout::Comment => write!(f, "a script has no comments"),
        }
    }
}

impl fmt::Display for BlockFault<'_> {
    fn fmt<W: fmt::Write>(&self, f: &mut fmt::Formatter<W>) -> fmt::Result {
        match *self {
            BlockFault::NotInside(word) => write!(
                f,
                "`{word}` can't stand in a block; `batch`, `exec`, `load`, `each`, `one`, \
                 `optional`, `cachesize`, `ping`, `transaction`, `end` and `fail` can"
            ),
            BlockFault::NoneOpen(word) => write!(f, "no block is open that `{word}` could close"),
            BlockFault::OtherConnection { open, named } => {
                write!(
                    f,
                    "the open block is on connection {open}, and not on {named}"
                )
            }
            BlockFault::TooDeep => write!(f, "64 blocks are open, and no more can be"),
            BlockFault::LeftOpen(open) => write!(
                f,
                "the script ends with a block open on connection {open}; \
                 `end {open}` or `fail {open}` closes it"
            ),
        }
    }
}

impl fmt::Display for Twice<'_> {
    fn fmt<W: fmt::Write>(&self, f: &mut fmt::Formatter<W>) -> fmt::Result {
        match *self {
            Twice::Header => write!(f, "`session` stands in the first line alone"),
            Twice::Url => write!(f, "the URL is given twice"),
            Twice::Query(query) => write!(f, "query {query} is declared twice"),
            Twice::Id(id) => write!(f, "two queries have the id {id}"),
            Twice::Item(server, item) => {
                write!(f, "item {item} of server {server} is refused twice")
            }
            Twice::Run(server, item) => {
                write!(f, "item {item} of server {server} has a row refused twice")
            }
            Twice::Attempt(attempt) => write!(f, "attempt {attempt} is refused twice"),
        }
    }
}

impl Limit {
    /// What is too much.
    fn text(self) -> &'static str {
        match self {
            Limit::Bytes => "a script has at most 16777216 bytes",
            Limit::Commands =>
                "a script has at most 1048576 commands, with those that close blocks",
            Limit::Loads => "a script has at most 65536 commands that load rows",
            Limit::Text => "a text has at most 65536 bytes",
            Limit::QueryText => "the text of a query has at most 512 bytes",
            Limit::Url => "a URL has at most 65536 bytes",
            Limit::Binds => "the binds of a query have at most 256 bytes",
            Limit::RowLine => "a `row` line has at most 1024 bytes",
            Limit::Values => "a row has at most 16 values",
            Limit::Rows => "a text has at most 16 rows, all of as many values",
        }
    }
}

/// The name of a dialect's servers.
fn product(dialect: Dialect) -> &'static str {
    match dialect {
        Dialect::Pg => "PostgreSQL",
        Dialect::Mysql => "MySQL",
        Dialect::Sqlite => "SQLite",
    }
}

impl fmt::Display for FieldFault<'_> {
    fn fmt<W: fmt::Write>(&self, f: &mut fmt::Formatter<W>) -> fmt::Result {
        match *self {
            FieldFault::Missing(field) => {
                write!(
                    f,
                    "the {} is missing; write {}",
                    field.name(),
                    field.wanted()
                )
            }
            FieldFault::Empty(field) => {
                let name = field.name();
                write!(f, "the {name} is empty; one space stands between two words")
            }
            FieldFault::Wrong(field, word) => {
                let (name, wanted) = (field.name(), field.wanted());
                write!(f, "`{}` is no {name}; write {wanted}", Shown(word))
            }
            FieldFault::Padded(word) => write!(
                f,
                "`{}` is no number; write it without a sign and without zeros in front",
                Shown(word)
            ),
            FieldFault::Behind(field) => write!(f, "nothing may stand behind the {}", field.name()),
            FieldFault::BehindWord(word) => write!(f, "nothing may stand behind `{word}`"),
        }
    }
}

/// Says that there is no such word, and which one may be meant.
fn write_unknown<W: fmt::Write>(
    f: &mut fmt::Formatter<W>,
    word: &str,
    nearest: Option<&str>,
) -> fmt::Result {
    match nearest {
        Some(nearest) => write!(f, "no command `{}`; did you mean `{nearest}`?", Shown(word)),
        None => write!(f, "no command `{}`", Shown(word)),
    }
}

impl fmt::Display for LineFault<'_> {
    fn fmt<W: fmt::Write>(&self, f: &mut fmt::Formatter<W>) -> fmt::Result {
        match *self {
            LineFault::Layout(fault) => write!(f, "{fault}"),
            LineFault::NoHeader => {
                write!(
                    f,
                    "a script begins with `session DIALECT SIZE CUSTOMIZER CHECK`"
                )
            }
            LineFault::UnknownWord(word, nearest) => write_unknown(f, word, nearest),
            LineFault::Field(fault) => write!(f, "{fault}"),
            LineFault::NoStatement => write!(
                f,
                "a text begins with SELECT, INSERT, UPDATE or DELETE, in capitals, \
                 or has spaces alone"
            ),
            LineFault::Mark(mark) => write!(
                f,
                "a text holds no `;`, `#`, `--` and `/*`, not in quotes either; this has `{mark}`"
            ),
            LineFault::BehindCommands(word) => write!(
                f,
                "`{word}` stands before the first command"
            ),
            LineFault::OneDialect(word, dialect) => {
                write!(f, "`{word}` is for {} alone", product(dialect))
            }
            LineFault::EndWithoutDeadlock => write!(f, "on MySQL the wish `end` has the code 1213"),
            LineFault::Block(fault) => write!(f, "{fault}"),
            LineFault::Twice(fault) => write!(f, "{fault}"),
            LineFault::Undeclared(query) => write!(f, "no line above declares query {query}"),
            LineFault::TooMuch(limit) => write!(f, "{}", limit.text()),
            LineFault::Unclear => write!(f, "the line can't stand here"),
        }
    }
}

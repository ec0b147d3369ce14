//! The commands that the words of the command line name.
ghost use Rattle.std.specs.Prelude.{◌≡◌, map, string_bytes};
ghost use Rattle.ts_top.specs.Commands.{command_of, demo_number, is_digit, command_of_words, number_from, of_word, of_words, writes};

/// A command of the command line.
#[derive(Clone, Copy, Debug, PartialEq, Eq)]
pub enum Command {
    /// Runs the lines of the input in order, on the history of the journal.
    Run,
    /// Runs the lines of the input by a worker for each session, on the history of the journal.
    Par,
    /// The same, but prints the transcript of the run instead of its replies.
    ParJson,
    /// Runs the script of the demonstration with a number below a million, and prints a summary.
    Demo(u32),
    /// Prints a text of the journal.
    Print(Text),
    /// Appends the image of the journal's history to the journal.
    Checkpoint,
    /// Audits a transcript against the journal.
    Audit,
}

impl Command {
    /// Whether it writes to the journal.
    pub fn writes(self) -> bool
        ensures { result ≡ writes self }
    {
        match self {
            Command::Run => true,
            Command::Par => true,
            Command::ParJson => true,
            Command::Demo(_) => false,
            Command::Print(_) => false,
            Command::Checkpoint => true,
            Command::Audit => false,
        }
    }
}

/// A text of the journal to print.
#[derive(Clone, Copy, Debug, PartialEq, Eq)]
pub enum Text {
    /// A line for each event.
    Log,
    /// Its position, and the pending refreshes.
    Check,
}

/// The command that this word names.
fn of_word(word: &str) -> Option<Command>
    ensures { result ≡ of_word word.now }
{
    if word == "run" {
        Some(Command::Run)
    } else if word == "par" {
        Some(Command::Par)
    } else if word == "log" {
        Some(Command::Print(Text::Log))
    } else if word == "check" {
        Some(Command::Print(Text::Check))
    } else if word == "checkpoint" {
        Some(Command::Checkpoint)
    } else if word == "audit" {
        Some(Command::Audit)
    } else {
        None
    }
}

/// Whether a byte is a digit.
fn is_digit(byte: u8) -> bool
    ensures { result ≡ is_digit byte }
{
    b'0' <= byte && byte <= b'9'
}

/// The number that begins with `so_far` and continues with these digits, if it is below a million.
fn number_from(so_far: u32, digits: &[u8]) -> Option<u32>
    ensures { result ≡ number_from so_far digits.now }
{
    match digits {
        [] => Some(so_far),
        [digit, rest @ ..] => {
            if is_digit(*digit) && so_far < 100_000 {
                number_from(10 * so_far + (*digit - b'0') as u32, rest)
            } else {
                None
            }
        }
    }
}

/// A number below a million, written without leading zeros.
fn demo_number(digits: &[u8]) -> Option<u32>
    ensures { result ≡ demo_number digits.now }
{
    match digits {
        [] => None,
        [b'0', _, ..] => None,
        _ => number_from(0, digits),
    }
}

/// The command that these two words name.
fn of_words(word: &str, next: &str) -> Option<Command>
    ensures { result ≡ of_words word.now next.now }
{
    if word == "demo" {
        demo_number(next.as_bytes()).map(Command::Demo)
    } else if word == "par" && next == "json" {
        Some(Command::ParJson)
    } else {
        None
    }
}

/// The command that these words name.
fn command_named(words: &[String]) -> Option<Command>
    ensures { result ≡ command_of_words (map string_bytes words.now) }
{
    match words {
        [word] => of_word(word.as_str()),
        [word, next] => of_words(word.as_str(), next.as_str()),
        _ => None,
    }
}

/// The command that the words name. A leading `--` is ignored.
pub fn command_of(words: &[String]) -> Option<Command>
    ensures { result ≡ command_of (map string_bytes words.now) }
{
    match words {
        [first, rest @ ..] if first.as_str() == "--" => command_named(rest),
        _ => command_named(words),
    }
}

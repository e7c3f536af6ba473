//! The commands: how each is used.
use std::alloc::{AllocError, Global};

/// What the program is.
const ABOUT: &str =
    "Zarr arrays in directories. Floats are seen as their bits, and shown as numbers.";

/// A command.
#[derive(Clone, Copy, Debug, PartialEq, Eq)]
pub enum Command {
    Info,
    Create,
    Do,
    /// A command on one array, which is opened first.
    OnArray(ArrayCommand),
}

/// A command on one array.
#[derive(Clone, Copy, Debug, PartialEq, Eq)]
pub enum ArrayCommand {
    Get,
    Put,
    Resize,
    Upgrade,
    Compact,
    Reencode,
    Check,
    Diff,
}

/// How a command is used.
#[derive(Clone, Copy, Debug)]
pub struct Usage {
    pub command: Command,
    pub name: &'static str,
    about: &'static str,
    /// The words that stand in their places; one with `?` may be left out.
    places: &'static str,
    /// The options, without their `--`: `name` stands by itself, `name=` has a value, and `name!` has to be there with one.
    options: &'static str,
}

/// Whether an option has a value, and whether it has to be there.
#[derive(Clone, Copy, Debug, PartialEq, Eq)]
pub(crate) enum OptionKind {
    Flag,
    Value,
    Needed,
}

const USAGES: [Usage; 11] = [
    Usage {
        command: Command::Info,
        name: "info",
        about: "says what the arrays in a directory are",
        places: "dir",
        options: "json",
    },
    Usage {
        command: Command::OnArray(ArrayCommand::Get),
        name: "get",
        about: "writes cells",
        places: "dir start? shape?",
        options: "raw npy to=",
    },
    Usage {
        command: Command::OnArray(ArrayCommand::Put),
        name: "put",
        about: "stores cells",
        places: "dir start? shape?",
        options: "raw npy from=",
    },
    Usage {
        command: Command::Create,
        name: "create",
        about: "makes an array",
        places: "dir",
        options: "shape! chunks! type! fill= shard= separator= v2",
    },
    Usage {
        command: Command::OnArray(ArrayCommand::Resize),
        name: "resize",
        about: "changes the shape of an array",
        places: "dir shape",
        options: "",
    },
    Usage {
        command: Command::OnArray(ArrayCommand::Upgrade),
        name: "upgrade",
        about: "makes a V2 array a V3 array",
        places: "dir",
        options: "",
    },
    Usage {
        command: Command::OnArray(ArrayCommand::Compact),
        name: "compact",
        about: "compacts the shards of an array",
        places: "dir",
        options: "",
    },
    Usage {
        command: Command::OnArray(ArrayCommand::Reencode),
        name: "reencode",
        about: "makes an array of the same cells in other chunks",
        places: "dir to",
        options: "chunks= shard= endian=",
    },
    Usage {
        command: Command::OnArray(ArrayCommand::Check),
        name: "check",
        about: "reads each chunk of an array",
        places: "dir",
        options: "",
    },
    Usage {
        command: Command::OnArray(ArrayCommand::Diff),
        name: "diff",
        about: "compares the cells of two arrays",
        places: "dir to",
        options: "",
    },
    Usage {
        command: Command::Do,
        name: "do",
        about: "runs the commands of files, one a line",
        places: "file",
        options: "",
    },
];

/// Returns how the command of this name is used.
pub fn usage_of(name: &str) -> Option<Usage> {
    for usage in &USAGES {
        if usage.name == name {
            return Some(*usage);
        }
    }
    None
}

/// Returns the name of a place, and whether it may be left out.
fn place_said(said: &str) -> (&str, bool) {
    match said.strip_suffix('?') {
        Some(name) => (name, true),
        None => (said, false),
    }
}

/// Returns the name of an option, and its kind.
fn option_said(said: &str) -> (&str, OptionKind) {
    if let Some(name) = said.strip_suffix('=') {
        return (name, OptionKind::Value);
    }
    match said.strip_suffix('!') {
        Some(name) => (name, OptionKind::Needed),
        None => (said, OptionKind::Flag),
    }
}

impl Usage {
    /// Returns the name of the place of this number.
    pub(crate) fn place(&self, number: usize) -> Option<&'static str> {
        let said = self.places.split_ascii_whitespace().nth(number)?;
        Some(place_said(said).0)
    }

    /// Returns the option of this name, and its kind.
    pub(crate) fn option(&self, name: &str) -> Option<(&'static str, OptionKind)> {
        for said in self.options.split_ascii_whitespace() {
            let option = option_said(said);
            if option.0 == name {
                return Some(option);
            }
        }
        None
    }

    /// Returns the first place that has to be filled and is not among these first ones.
    pub(crate) fn place_missing(&self, filled: usize) -> Option<&'static str> {
        match place_said(self.places.split_ascii_whitespace().nth(filled)?) {
            (name, false) => Some(name),
            _ => None,
        }
    }

    /// Returns the names of the options that have to be there.
    pub(crate) fn needed(&self, alloc: Global) -> Result<Vec<&'static str>, AllocError> {
        let mut needed = Vec::new(alloc);
        for said in self.options.split_ascii_whitespace() {
            if let (name, OptionKind::Needed) = option_said(said) {
                needed.push(name)?;
            }
        }
        Ok(needed)
    }

    /// Returns a line that says the words of the command.
    pub fn line(&self, alloc: Global) -> Result<String, AllocError> {
        let mut line = format!(in alloc; "zarr {}", self.name)?;
        for said in self.places.split_ascii_whitespace() {
            match place_said(said) {
                (name, true) => write_word(&mut line, " [", name, "]")?,
                (name, false) => write_word(&mut line, " <", name, ">")?,
            }
        }
        for said in self.options.split_ascii_whitespace() {
            match option_said(said) {
                (name, OptionKind::Flag) => write_word(&mut line, " [--", name, "]")?,
                (name, OptionKind::Value) => write_word(&mut line, " [--", name, " ..]")?,
                (name, OptionKind::Needed) => write_word(&mut line, " --", name, " ..")?,
            }
        }
        Ok(line)
    }
}

/// Adds a word of a usage, with what stands before and behind it.
fn write_word(line: &mut String, before: &str, name: &str, behind: &str) -> Result<(), AllocError> {
    line.push_str(before)?;
    line.push_str(name)?;
    line.push_str(behind)
}

/// Returns what the command does, and its words.
pub fn command_help(alloc: Global, usage: &Usage) -> Result<String, AllocError> {
    let line = usage.line(alloc)?;
    format!(in alloc; "{}\n\nUsage: {line}", usage.about)
}

/// Returns what the program is, and its commands.
pub fn program_help(alloc: Global) -> Result<String, AllocError> {
    let mut text = format!(in alloc; "{ABOUT}\n\nUsage: zarr <command>\n\nCommands:")?;
    for usage in &USAGES {
        let line = usage.line(alloc)?;
        write_word(&mut text, "\n  ", line.as_str(), "\n      ")?;
        text.push_str(usage.about)?;
    }
    Ok(text)
}

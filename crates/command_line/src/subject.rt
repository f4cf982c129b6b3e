//! What a request maps: a type of a pickle, by its name, by what the pickle's head says, or by the format of the file.
ghost use Rattle.std.specs.Prelude.{◌≡◌, option_map};
ghost use Rattle.std.specs.List.{list_all};
ghost use Rattle.command_line.specs.Subjects.{has_type, is_by_head, is_file_alone, is_name_byte, names_installed, names_no_type, pickle_of};

/// The argument for a type that the head of the pickle says.
pub const BY_HEAD: &str = "-";

/// What a request maps.
#[derive(Debug, Drop, PartialEq, Eq)]
pub enum Subject {
    /// The type with this name.
    Named {
        /// The argument that names the pickle: a path, `-` for standard input, or `+` and the name of an installed one.
        pickle: String,
        name: String,
    },
    /// A type that the head of an installed pickle says. The head's options apply, unless they are given.
    ByHead {
        pickle: String,
        part: HeadType,
    },
    /// The type of whole files of the format that the file has, among those that are installed; of a search the types of all
    /// of them inside other bytes. No pickle is named.
    Identified,
}

/// A type that the head of a pickle says.
#[derive(Clone, Copy, Debug, Drop, PartialEq, Eq)]
pub enum HeadType {
    /// The type of whole files.
    Documented,
    /// The type of the format inside other bytes.
    Inside,
    /// The type that has the format's list of records, which is at a path that the head says too.
    Records,
}

impl Subject {
    /// The argument that names the pickle, if one does.
    pub fn pickle(&self) -> Option<&str>
        ensures { option_map (λ pickle. pickle.now) result ≡ pickle_of self.now }
    {
        match self {
            Subject::Named { pickle, .. } | Subject::ByHead { pickle, .. } => Some(pickle.as_str()),
            Subject::Identified => None,
        }
    }
}

/// Whether an argument names an installed pickle: `+`, and one or more letters, digits, `_` and `-`.
pub fn names_installed(word: &str) -> bool
    ensures { result ≡ names_installed word.now }
{
    match word.as_bytes() {
        [b'+', name @ ..] => !name.is_empty() && are_name_bytes(name),
        _ => false,
    }
}

fn are_name_bytes(bytes: &[u8]) -> bool
    ensures { result ≡ list_all is_name_byte bytes.now }
{
    bytes.iter().all(|byte| is_name_byte(*byte))
}

fn is_name_byte(byte: u8) -> bool
    ensures { result ≡ is_name_byte byte }
{
    byte.is_ascii_alphanumeric() || byte == b'_' || byte == b'-'
}

/// Whether the first of three arguments is a file alone: there is no other, and it doesn't name an installed pickle.
pub fn is_file_alone(first: Option<&str>, second: Option<&str>, third: Option<&str>) -> bool
    ensures { result ≡ is_file_alone (option_map (λ word. word.now) first.entry)
        (option_map (λ word. word.now) second.entry) (option_map (λ word. word.now) third.entry) }
{
    match (first, second, third) {
        (Some(word), None, None) => !names_installed(word),
        _ => false,
    }
}

/// Whether the type is one that the head of a pickle says, by the arguments for both.
pub fn is_by_head(pickle: &str, name: Option<&str>) -> bool
    ensures { result ≡ is_by_head pickle.now (option_map (λ name. name.now) name.entry) }
{
    names_installed(pickle) && names_no_type(name)
}

/// Whether the arguments say which type is mapped: only beside an installed pickle it may be left out.
pub fn has_type(pickle: &str, name: Option<&str>) -> bool
    ensures { result ≡ has_type pickle.now (option_map (λ name. name.now) name.entry) }
{
    name.is_some() || names_installed(pickle)
}

fn names_no_type(name: Option<&str>) -> bool
    ensures { result ≡ names_no_type (option_map (λ name. name.now) name.entry) }
{
    match name {
        Some(name) => name == BY_HEAD,
        None => true,
    }
}

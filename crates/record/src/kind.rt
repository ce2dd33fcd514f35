// The kinds of operation, with their codes and maps: "Kinds and maps" of document 01. The numbers stand here and nowhere
// else in the code.
ghost use Rattle.std.specs.Prelude.{◌≡◌};
ghost use Rattle.record.specs.Kind.{code_of, map_of_kind, displacing_map_of, kind_of_code, has_map};

#[derive(Clone, Copy, PartialEq, Eq)]
pub enum Kind {
    CreateFile,
    MakeDirectory,
    Remove,
    Rename,
    Overwrite,
    Append,
    SetLength,
    Forder,
}

impl Kind {
    pub const CREATE_FILE: usize = 1;

    pub const MAKE_DIRECTORY: usize = 2;

    pub const REMOVE: usize = 3;

    pub const RENAME: usize = 4;

    pub const OVERWRITE: usize = 5;

    pub const APPEND: usize = 6;

    pub const SET_LENGTH: usize = 7;

    pub const FORDER: usize = 8;

    pub const ENTRY_MAP: usize = 19;

    pub const RENAME_MAP: usize = 55;

    pub const DISPLACING_MAP: usize = 63;

    pub const RANGE_MAP: usize = 193;

    pub const LENGTH_MAP: usize = 65;

    pub const LIST_MAP: usize = 256;

    pub fn code(self) -> usize
        ensures { result ≡ code_of self }
    {
        match self {
            Kind::CreateFile => Kind::CREATE_FILE,
            Kind::MakeDirectory => Kind::MAKE_DIRECTORY,
            Kind::Remove => Kind::REMOVE,
            Kind::Rename => Kind::RENAME,
            Kind::Overwrite => Kind::OVERWRITE,
            Kind::Append => Kind::APPEND,
            Kind::SetLength => Kind::SET_LENGTH,
            Kind::Forder => Kind::FORDER,
        }
    }

    // The map of a kind; a rename's where nothing is displaced.
    pub fn map(self) -> usize
        ensures { result ≡ map_of_kind self }
    {
        match self {
            Kind::CreateFile => Kind::ENTRY_MAP,
            Kind::MakeDirectory => Kind::ENTRY_MAP,
            Kind::Remove => Kind::ENTRY_MAP,
            Kind::Rename => Kind::RENAME_MAP,
            Kind::Overwrite => Kind::RANGE_MAP,
            Kind::Append => Kind::RANGE_MAP,
            Kind::SetLength => Kind::LENGTH_MAP,
            Kind::Forder => Kind::LIST_MAP,
        }
    }

    // The map of a kind where an object is displaced, which only a rename does.
    pub fn displacing_map(self) -> usize
        ensures { result ≡ displacing_map_of self }
    {
        match self {
            Kind::CreateFile => Kind::ENTRY_MAP,
            Kind::MakeDirectory => Kind::ENTRY_MAP,
            Kind::Remove => Kind::ENTRY_MAP,
            Kind::Rename => Kind::DISPLACING_MAP,
            Kind::Overwrite => Kind::RANGE_MAP,
            Kind::Append => Kind::RANGE_MAP,
            Kind::SetLength => Kind::LENGTH_MAP,
            Kind::Forder => Kind::LIST_MAP,
        }
    }

    // The kind that a code stands for, if it is one.
    pub fn of_code(code: usize) -> Option<Kind>
        ensures { result ≡ kind_of_code code }
    {
        match code {
            Kind::CREATE_FILE => Some(Kind::CreateFile),
            Kind::MAKE_DIRECTORY => Some(Kind::MakeDirectory),
            Kind::REMOVE => Some(Kind::Remove),
            Kind::RENAME => Some(Kind::Rename),
            Kind::OVERWRITE => Some(Kind::Overwrite),
            Kind::APPEND => Some(Kind::Append),
            Kind::SET_LENGTH => Some(Kind::SetLength),
            Kind::FORDER => Some(Kind::Forder),
            _ => None,
        }
    }

    // Whether a map is one of the kind's.
    pub fn has_map(self, map: usize) -> bool
        ensures { result ≡ has_map self map }
    {
        if map == self.map() {
            return true;
        }
        map == self.displacing_map()
    }
}

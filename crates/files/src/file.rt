// The files by name and number, and a fault in one of them.
ghost use Rattle.std.specs.Prelude.{◌≡◌, Some};
ghost use Rattle.files.specs.Files.{number_of, name_of, file_of, fault_text};

use refusal::Fault;
use std::fmt;
use table::table::Table;

#[derive(Clone, Copy, PartialEq, Eq, Debug)]
pub enum File {
    Nodes = 1,
    Areas = 2,
    Terrain = 3,
    Legs = 4,
}

impl File {
    // The number that stands for the file in a fault.
    pub fn number(self) -> u8
        ensures { result ≡ number_of self }
    {
        self as u8
    }
}

// The file that holds a table.
impl From<Table> for File {
    ghost from_gives = { λ table file. file ≡ file_of table };

    fn from(table: Table) -> File {
        match table {
            Table::Nodes => File::Nodes,
            Table::Areas => File::Areas,
            Table::Legs => File::Legs,
        }
    }
}

// The file's name.
impl fmt::Display for File {
    ghost output = { λ file. Some (name_of file) };

    fn fmt<W: fmt::Write>(&self, f: &mut fmt::Formatter<W>) -> fmt::Result {
        match self {
            File::Nodes => write!(f, "nodes.txt"),
            File::Areas => write!(f, "areas.txt"),
            File::Terrain => write!(f, "terrain.bin"),
            File::Legs => write!(f, "legs.txt"),
        }
    }
}

// The bytes of the four files.
#[derive(Clone, Copy)]
pub struct Files<'a> {
    pub nodes: &'a [u8],
    pub areas: &'a [u8],
    pub terrain: &'a [u8],
    pub legs: &'a [u8],
}

// A fault, and the file that has it.
#[derive(Clone, Copy, PartialEq, Eq, Debug)]
pub struct FileFault {
    pub file: File,
    pub fault: Fault,
}

// The two lines of a fault.
impl fmt::Display for FileFault {
    ghost output = { λ f. Some (fault_text f.file f.fault) };

    fn fmt<W: fmt::Write>(&self, f: &mut fmt::Formatter<W>) -> fmt::Result {
        let file = self.file.number();
        let fault = self.fault;
        write!(f, "file number layer line column\n{file} {fault}\n")
    }
}

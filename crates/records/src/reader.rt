// A reader that holds its record and a position. Its methods call the cursor of `forms`; the functions below take a plain record and a position, make
// a reader of them and ask it, so that whoever reads a request has the reader's promise.
ghost use Rattle.std.specs.Prelude.{◌≡◌};
ghost use Rattle.forms.specs.Read.{NameRead, CellRead};

use forms::read;
use forms::read::Broken;
use values::value::{Cell, Text};

#[derive(Clone, Copy)]
pub struct Reader<'a> {
    pub bytes: &'a [u8],
    pub at: usize,
}

// A reader at a position of a record.
pub fn reader_at<'a>(bytes: &'a [u8], at: usize) -> Reader<'a>
    ensures { (result.bytes ≡ bytes.entry) × (result.at ≡ at) }
{
    Reader { bytes, at }
}

impl<'a> Reader<'a> {
    // The name at its position.
    pub fn name(self) -> Result<(Text, usize), Broken>
        ensures { NameRead self.entry.bytes.now self.entry.at result }
    {
        read::name_at(self.bytes, self.at)
    }

    // The value at its position.
    pub fn value(self) -> Result<(Cell, usize), Broken>
        ensures { CellRead self.entry.bytes.now self.entry.at result }
    {
        read::value_at(self.bytes, self.at)
    }
}

// The name at a position of a record.
pub fn name_at(bytes: &[u8], at: usize) -> Result<(Text, usize), Broken>
    ensures { NameRead bytes.now at result }
{
    reader_at(bytes, at).name()
}

// The value at a position of a record.
pub fn value_at(bytes: &[u8], at: usize) -> Result<(Cell, usize), Broken>
    ensures { CellRead bytes.now at result }
{
    reader_at(bytes, at).value()
}

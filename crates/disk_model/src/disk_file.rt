ghost use Rattle.std.specs.Prelude.{◌≡◌};
ghost use Rattle.disk_model.specs.Store.{number_of};

use std::fmt;

/// One of the three files of a store. Printed, they are 0, 1 and 2.
#[derive(Clone, Copy, Debug, PartialEq, Eq)]
pub enum DiskFile {
    /// What the program has written.
    Output,
    /// The first file of images.
    One,
    /// The second file of images.
    Two,
}

impl DiskFile {
    /// The number by which the file is printed.
    pub fn number(self) -> u8
        ensures answer { result ≡ number_of self }
    {
        match self {
            DiskFile::Output => 0,
            DiskFile::One => 1,
            DiskFile::Two => 2,
        }
    }
}

impl fmt::Display for DiskFile {
    ghost use Rattle.std.specs.Prelude.{Some};
    ghost use Rattle.std.specs.Fmt.{decimal};
    ghost use Rattle.disk_model.specs.Store.{number_of};

    ghost output = { λ f. Some (decimal (number_of f)) };

    fn fmt<W: fmt::Write>(&self, f: &mut fmt::Formatter<W>) -> fmt::Result {
        write!(f, "{}", self.number())
    }
}

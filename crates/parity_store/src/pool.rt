ghost use Rattle.std.specs.Prelude.{◌≡◌};

use crate::header::PoolHeader;
use disk_model::DiskFile;
use std::marker::Model;

/// A pool of several jobs: its current file, and the header of that. Contracts see both.
///
/// After a call that answers `Failed` it is opened again.
#[derive(Drop)]
pub struct Pool {
    pub(crate) file: DiskFile,
    pub(crate) header: PoolHeader,
}

impl Model for Pool {
    ghost use Rattle.std.specs.Prelude.{◌≢◌};
    ghost use Rattle.disk_model.specs.declared.disk_file.DiskFile.TheVariants.{Output};
    ghost use Rattle.parity_store.specs.OnDisk.{PoolView};
    ghost use Rattle.parity_store.specs.Layout.{IsPoolHeader};

    ghost Value = { PoolView };

    ghost view = { λ p. record { file = p.file; header = p.header } };

    ghost invariant = { λ p. record { header : IsPoolHeader p.header; image_file : p.file ≢ Output } };
}

impl Pool {
    /// How many jobs there are, 2 to 16. The jobs are numbered from 1 on.
    pub fn jobs(&self) -> u16
        ensures answer { result ≡ self.now.header.jobs }
    {
        self.header.jobs
    }

    /// How many bytes a slot has, 1 to 16,777,216. No job has more.
    pub fn size(&self) -> u32
        ensures answer { result ≡ self.now.header.size }
    {
        self.header.size
    }
}

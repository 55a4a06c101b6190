//! The bytes of a database's files.
use super::limits::Which;
use std::alloc::Global;
use std::process::Abort;

/// The bytes of a database file and its log.
#[derive(Drop)]
pub(super) struct Image {
    pub log: Vec<u8>,
    pub db: Vec<u8>,
}

impl Image {
    /// The files before the first desk is made.
    pub(super) fn empty(rt: &impl Alloc<A = Global>) -> Image {
        Image {
            log: Vec::new(rt.alloc()),
            db: Vec::new(rt.alloc()),
        }
    }

    pub(super) fn file(&self, which: Which) -> &[u8] {
        match which {
            Which::Log => &self.log,
            Which::Db => &self.db,
        }
    }

    pub(super) fn is(&self, other: &Image) -> bool {
        self.log == other.log && self.db == other.db
    }

    pub(super) fn copy(&self, rt: &(impl Abort + Alloc<A = Global>)) -> Image {
        Image {
            log: copy(rt, &self.log),
            db: copy(rt, &self.db),
        }
    }

    /// The same files, one of them with other bytes.
    pub(super) fn with(
        &self,
        rt: &(impl Abort + Alloc<A = Global>),
        which: Which,
        bytes: &[u8],
    ) -> Image {
        let (log, db) = match which {
            Which::Log => (bytes, self.db.as_slice()),
            Which::Db => (self.log.as_slice(), bytes),
        };
        Image {
            log: copy(rt, log),
            db: copy(rt, db),
        }
    }
}

pub(super) fn copy(rt: &(impl Abort + Alloc<A = Global>), bytes: &[u8]) -> Vec<u8> {
    Vec::from_slice(rt.alloc(), bytes).ok().expect(rt, "memory")
}

//! Files in memory, by their paths.
use crate::places::Place;
use std::alloc::Global;

/// A file that is only read, as a list of payments.
#[derive(Clone, Copy)]
pub struct OtherFile<'a> {
    pub path: &'a str,
    pub bytes: &'a [u8],
}

/// Files in memory: those of desks, and those that are only read.
#[derive(Drop)]
pub struct MemoryFiles<'a> {
    pub(crate) alloc: Global,
    /// The files that are only read.
    pub others: &'a [OtherFile<'a>],
    /// The files of desks.
    pub places: Vec<Place>,
    /// The place whose files were given out last and are not back.
    pub opened: Option<usize>,
}

impl<'a> MemoryFiles<'a> {
    ghost use Rattle.std.specs.Prelude.{◌≡◌, [], None};

    /// Returns files in memory without a desk; these other files can be read.
    pub fn new(alloc: Global, others: &'a [OtherFile<'a>]) -> MemoryFiles<'a>
        ensures others { result.others ≡ others.entry }
        ensures places { result.places.items ≡ [] }
        ensures opened { result.opened ≡ None }
    {
        MemoryFiles {
            alloc,
            others,
            places: Vec::new(alloc),
            opened: None,
        }
    }
}

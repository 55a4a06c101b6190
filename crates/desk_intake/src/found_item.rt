//! The items of a file come with what their traces name.
use ach_files::ItemFacts;
use desk_book::NamedEntry;

/// A `FoundItem` is an item with what its trace names, if a sent entry has it.
#[derive(Clone, Copy, Debug, PartialEq, Eq, Drop)]
pub struct FoundItem {
    pub item: ItemFacts,
    pub named: Option<NamedEntry>,
}

//! A `Recogniser` keeps what matters of the bytes so far.

ghost use Rattle.std.specs.List.{list_all};
ghost use Rattle.ach_fields.specs.Characters.{is_printable};
ghost use Rattle.std.specs.Prelude.{IfOk, true, ◌≡◌, ◌+◌, ◌≤◌, ◌<◌, ◌++◌, [], length, take, OnOk, IfErr, Option, OnErr, IsSome, vec_capacity, vec_len};
ghost use Rattle.ach_files.specs.Limits.{most_bytes};
ghost use Rattle.ach_files.specs.ReaderState.{part_length, weight, most_weight, digest_text, place_of, HoldsMore};
ghost use Rattle.std.specs.Option.{option_to_list};
ghost use Rattle.ach_files.specs.declared.fault.FileFault.TheVariants as faults;
ghost use Rattle.ach_files.specs.declared.fault.FileFault.{FileFault};
ghost use Rattle.ach_files.specs.FirstFault.{IsNoMemory, Tells, TellsKind, map_fault, record_of, is_inside};

use crate::advance::{advance, completed_item};
use crate::facts::ItemFacts;
use crate::fault::{Fault, FileFault};
use crate::judge::judge;
use crate::limits::MOST_BYTES;
use crate::place::{Position, Step, is_inside, is_line_end, may_begin, record_of, step_of};
use crate::stage::Stage;
use crate::taken::Taken;
use ach_fields::{are_printable, is_printable};
use ach_records::{Kind, kind_of};
use sha2::{Digest, Sha256};
use std::alloc::Global;

/// A `Recogniser` keeps of the bytes so far one record in part, running sums, the state of the digest and
/// the items.
#[derive(Drop)]
pub struct Recogniser {
    taken: u32,
    records: u32,
    position: Position,
    part: [u8; 94],
    stage: Stage,
    hasher: Sha256,
    facts: Vec<ItemFacts>,
    ghost size: { taken ≤ most_bytes },
    ghost few: { records ≤ taken },
    ghost inside: { part_length position < 94 },
    ghost small: { weight stage ≤ most_weight records },
}

fn keep_item(facts: &mut Vec<ItemFacts>, item: Option<ItemFacts>) -> Result<(), FileFault>
    ensures ok { OnOk result (facts.new.items ≡ facts.old.items ++ option_to_list item) }
    ensures err { IfErr result (λ f. f ≡ faults.NoMemory) }
    // It gives up only where there is an item, and the items fill their room.
    ensures full { OnErr result (IsSome item × (vec_capacity facts.old ≤ vec_len facts.old)) }
    ensures room { OnOk result (vec_capacity facts.old ≤ vec_capacity facts.new) }
{
    if let Some(item) = item {
        if facts.push(item).is_err() {
            return Err(FileFault::NoMemory);
        }
    }
    Ok(())
}

fn digest_record(hasher: &mut Sha256, kind: Kind, text: &[u8; 94])
    ensures { HoldsMore hasher.old hasher.new (digest_text kind text.now) }
{
    match kind {
        Kind::Filler => {}
        _ => hasher.update(text.as_slice()),
    }
}

// Returns the fault of that kind in that record; lack of memory belongs to no record.
fn fault_in_record(kind: FileFault, number: u32) -> Fault
    ensures value { (o : Option FileFault) → TellsKind kind o → Tells result (map_fault number o) }
    ensures memory { IsNoMemory result → kind ≡ faults.NoMemory }
{
    match kind {
        FileFault::NoMemory => Fault { kind, at: 0 },
        _ => Fault { kind, at: number },
    }
}

impl Recogniser {
    ghost use Rattle.ach_files.specs.Layout.{Layout, may_begin};
    ghost use Rattle.ach_files.specs.Has.{HasLayout, HasBytes, item_room};
    ghost use Rattle.ach_files.specs.Memory.{NeedsRoom};
    ghost use Rattle.ach_files.specs.Taking.{TakesRecord, EndsRecord, RecordNeedsRoom, TakesInRecord, InRecordNeedsRoom, TakesByte, ByteNeedsRoom, TakesWhole, WholeNeedsRoom, TakesSome, TakesPiece, EndsAs};

    /// Begins a file of which no bytes came yet.
    pub fn new(alloc: Global) -> Recogniser
        ensures { HasBytes result [] }
    {
        Recogniser {
            taken: 0,
            records: 0,
            position: Position::InRecord(0),
            part: [0; 94],
            stage: Stage::BeforeHeader,
            hasher: Sha256::new(),
            facts: Vec::new(alloc),
        }
    }

    // Takes the whole record in `part`.
    fn take_record(&mut self, number: u32) -> Result<(), FileFault>
        requires number { number ≡ self.old.records + 1 }
        requires room { self.old.records < self.old.taken }
        ensures records { TakesRecord self.old self.new result }
        ensures position { OnOk result (EndsRecord self.old self.new) }
        ensures memory { RecordNeedsRoom self.old result }
        ensures room { OnOk result (item_room self.old ≤ item_room self.new) }
    {
        let kind = kind_of(&self.part);
        if let Some(fault) = judge(&self.stage, number, kind, &self.part) {
            return Err(fault);
        }
        let item = completed_item(&self.stage, kind, &self.part);
        keep_item(&mut self.facts, item)?;
        digest_record(&mut self.hasher, kind, &self.part);
        self.stage = advance(self.stage, self.records, kind, &self.part);
        self.records = number;
        self.position = Position::AfterRecord;
        Ok(())
    }

    // Takes a byte of a record, after `count` of its bytes.
    fn put(&mut self, count: usize, byte: u8) -> Result<(), FileFault>
        requires count { count < 94 }
        requires room { self.old.records < self.old.taken }
        ensures layout { TakesInRecord self.old self.new count byte result }
        ensures taken { OnOk result (self.new.taken ≡ self.old.taken) }
        ensures memory { InRecordNeedsRoom self.old count byte result }
        ensures room { OnOk result (item_room self.old ≤ item_room self.new) }
    {
        if is_line_end(byte) {
            return Err(FileFault::BadLength);
        }
        if !is_printable(byte) {
            return Err(FileFault::BadByte);
        }
        self.part[count] = byte;
        if count == 93 {
            let number = self.records + 1;
            return self.take_record(number);
        }
        self.position = Position::InRecord(count + 1);
        Ok(())
    }

    // Takes the next byte.
    fn take(&mut self, byte: u8) -> Result<(), Fault>
        ensures read { TakesByte self.old self.new byte result }
        ensures memory { ByteNeedsRoom self.old byte result }
        ensures room { OnOk result (item_room self.old ≤ item_room self.new) }
    {
        let step = step_of(self.position, byte);
        let at = record_of(step, self.records);
        if self.taken >= MOST_BYTES {
            return Err(Fault {
                kind: FileFault::TooLarge,
                at,
            });
        }
        self.taken += 1;
        match step {
            Step::Put(count) => match self.put(count, byte) {
                Ok(()) => Ok(()),
                Err(kind) => Err(fault_in_record(kind, at)),
            },
            Step::Go(position) => {
                self.position = position;
                Ok(())
            }
            Step::Stray => Err(Fault {
                kind: FileFault::BadLength,
                at,
            }),
        }
    }

    // Takes a whole record, if one may begin here.
    fn take_whole(&mut self, text: &[u8]) -> Result<(), Fault>
        requires whole { length text.now ≡ 94 }
        requires printable { list_all is_printable text.now ≡ true }
        requires room { self.old.taken + 94 ≤ most_bytes }
        ensures read { TakesWhole self.old self.new text.now result }
        ensures memory { WholeNeedsRoom self.old text.now result }
        ensures room { OnOk result (item_room self.old ≤ item_room self.new) }
    {
        self.part.copy_from_slice(text);
        self.taken += 94;
        let number = self.records + 1;
        match self.take_record(number) {
            Ok(()) => Ok(()),
            Err(kind) => Err(fault_in_record(kind, number)),
        }
    }

    // Reports whether a whole record begins here, all of whose bytes are allowed in a record.
    fn is_at_record(&self, bytes: &[u8]) -> bool
        ensures whole { result ≡ true → 94 ≤ length bytes.now }
        ensures printable { result ≡ true → list_all is_printable (take 94 bytes.now) ≡ true }
        ensures room { result ≡ true → self.now.taken + 94 ≤ most_bytes }
        ensures may_begin { result ≡ true →
            may_begin (place_of self.now.part self.now.position) ≡ true }
    {
        if bytes.len() < 94 || self.taken > MOST_BYTES - 94 || !may_begin(self.position) {
            return false;
        }
        are_printable(&bytes[..94])
    }

    // Takes the next bytes: a record if one begins, else one byte. Returns their number.
    fn take_some(&mut self, bytes: &[u8]) -> Result<usize, Fault>
        requires { 0 < length bytes.now }
        ensures within { IfOk result (λ count. (0 < count) × (count ≤ length bytes.now)) }
        ensures read { TakesSome self.old self.new bytes.now result }
        ensures memory { NeedsRoom (HasBytes self.old) (item_room self.old) bytes.now result }
        ensures room { OnOk result (item_room self.old ≤ item_room self.new) }
    {
        if self.is_at_record(bytes) {
            self.take_whole(&bytes[..94])?;
            return Ok(94);
        }
        self.take(bytes[0])?;
        Ok(1)
    }

    /// Takes the next bytes.
    pub fn take_all(&mut self, piece: &[u8]) -> Result<(), Fault>
        ensures read { TakesPiece self.old self.new piece.now result }
        ensures memory { NeedsRoom (HasBytes self.old) (item_room self.old) piece.now result }
    {
        let mut next = 0;
        while next < piece.len() {
            next += self.take_some(&piece[next..])?;
        }
        Ok(())
    }

    /// Ends the input. Returns the facts of the file, or its fault at the end.
    #[tactic(auto, unfolding(crate::specs::FirstFault::end_fault))]
    pub fn end(self) -> Result<Taken, Fault>
        ensures { (l : Layout) → HasLayout self l → EndsAs l result }
    {
        let at = self.records + 1;
        if is_inside(self.position) {
            return Err(Fault {
                kind: FileFault::BadLength,
                at,
            });
        }
        match self.stage {
            Stage::Closed(key) => Ok(Taken::new(key, self.hasher.finalize(), self.facts)),
            _ => Err(Fault {
                kind: FileFault::BadOrder,
                at,
            }),
        }
    }
}

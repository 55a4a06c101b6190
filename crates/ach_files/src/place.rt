//! The place of the next byte in a file.

ghost use Rattle.std.specs.Prelude.{◌≡◌, ◌≤◌, ℕ, List};
ghost use Rattle.ach_files.specs.Layout.{move_at, is_end, may_begin};
ghost use Rattle.ach_files.specs.FirstFault.{is_inside};
ghost use Rattle.ach_files.specs.Limits.{most_bytes};
ghost use Rattle.ach_files.specs.ReaderState.{place_of, move_of, part_length, step_part_length, IsRecordNumber, AnswersAt};

/// The place of the next byte.
#[derive(Clone, Copy)]
pub enum Position {
    /// In a record, after this many of its bytes.
    InRecord(usize),
    /// Right after a record.
    AfterRecord,
    /// After a CR that follows a record.
    AfterReturn,
    /// After the LF or CR LF that follows a record.
    AfterLine,
    /// In the run of CR and LF that ends a file.
    InTail,
}

/// A `Step` is what a byte does.
#[derive(Clone, Copy)]
pub enum Step {
    /// The byte belongs to a record, after this many of its bytes.
    Put(usize),
    /// The byte leads to this place.
    Go(Position),
    /// The byte is not allowed at its place.
    Stray,
}

/// Is it CR or LF?
pub fn is_line_end(byte: u8) -> bool
    ensures { result ≡ is_end byte }
{
    byte == b'\n' || byte == b'\r'
}

/// Returns the effect of the next byte. After a record one LF or one CR LF is skipped; a CR or LF
/// after that begins the tail, which has only CR and LF.
#[tactic(auto, unfolding(crate::specs::Layout::move_at))]
pub fn step_of(position: Position, byte: u8) -> Step
    ensures place { (part : List ℕ) → move_of part result ≡ move_at (place_of part position) byte }
    ensures inside { step_part_length result ≤ part_length position }
{
    match position {
        Position::InRecord(count) => Step::Put(count),
        Position::AfterRecord => match byte {
            b'\n' => Step::Go(Position::AfterLine),
            b'\r' => Step::Go(Position::AfterReturn),
            _ => Step::Put(0),
        },
        Position::AfterReturn => match byte {
            b'\n' => Step::Go(Position::AfterLine),
            b'\r' => Step::Go(Position::InTail),
            _ => Step::Stray,
        },
        Position::AfterLine if is_line_end(byte) => Step::Go(Position::InTail),
        Position::AfterLine => Step::Put(0),
        Position::InTail if is_line_end(byte) => Step::Go(Position::InTail),
        Position::InTail => Step::Stray,
    }
}

/// Returns the number of the record that has the byte of this step, after this many records.
pub fn record_of(step: Step, records: u32) -> u32
    requires { records ≤ most_bytes }
    ensures { IsRecordNumber step records result }
{
    match step {
        Step::Put(_) => records + 1,
        Step::Go(_) | Step::Stray => records,
    }
}

/// Did some bytes of a record come, and not all?
#[tactic(auto, using(std::proofs::lemmas::Grind::common_steps))]
pub fn is_inside(position: Position) -> bool
    ensures { AnswersAt position is_inside result }
{
    match position {
        Position::InRecord(count) => count > 0,
        _ => false,
    }
}

/// May a record begin here?
#[tactic(auto, using(std::proofs::lemmas::Grind::common_steps))]
pub fn may_begin(position: Position) -> bool
    ensures { AnswersAt position may_begin result }
{
    match position {
        Position::InRecord(count) => count == 0,
        Position::AfterRecord | Position::AfterLine => true,
        Position::AfterReturn | Position::InTail => false,
    }
}

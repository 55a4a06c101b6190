ghost use Rattle.std.specs.Prelude.{◌≡◌};
ghost use Rattle.ach_records.specs.Record.{IsRecord};
ghost use Rattle.ach_records.specs.declared.Kind.TheVariants as kinds;

/// A `Filler` views 94 nines, which fill the last block of a file.
#[derive(Clone, Copy)]
pub struct Filler<'a> {
    /// These are its 94 bytes.
    pub text: &'a [u8; 94],
    ghost is_record: { IsRecord kinds.Filler text.now },
}

impl<'a> Filler<'a> {
    // The view of a text that was found to be this record.
    pub(crate) fn of(text: &'a [u8; 94]) -> Filler<'a>
        requires { IsRecord kinds.Filler text.now }
        ensures { result.text.now ≡ text.now }
    {
        Filler { text }
    }
}

//! The definitions have these laws.

ghost use Rattle.std.specs.Prelude.{◌≡◌, ℕ, List, Some, None, length, ◌≤◌};
ghost use Rattle.ach_files.specs.File.{IsFile, AreRecords};
ghost use Rattle.ach_files.specs.Limits.{most_bytes};
ghost use Rattle.ach_files.specs.Structure.{File, file_text};
ghost use Rattle.ach_files.specs.FirstFault.{early_fault, fault, HasEarlyFault};
ghost use Rattle.ach_files.specs.declared.fault.Fault.{Fault};
ghost use Rattle.std.specs.Prelude.{◌<◌, ◌+◌, ◌%◌, ◌++◌};
ghost use Rattle.ach_files.specs.declared.outgoing.Outgoing.{Outgoing};
ghost use Rattle.ach_files.specs.Outgoing.{print_fault, filler_count, AllFit, outgoing_rows};
ghost use Rattle.ach_files.specs.ReturnsAndChanges.{AreReturnsAndChanges, IsReadAgain, KeepsKey, KeepsFacts};

/// Bytes are a file exactly where they have no fault.
pub fn file_or_fault()
    ensures file { (bytes : List ℕ) (f : File) → IsFile bytes f → fault bytes ≡ None }
    ensures fault { (bytes : List ℕ) → fault bytes ≡ None → (f : File) × IsFile bytes f }
{}

/// No bytes are two different files.
pub fn one_file()
    ensures { (bytes : List ℕ) (f g : File) → IsFile bytes f → IsFile bytes g → f ≡ g }
{}

/// The text of a file of valid records is that file, if it is not too long.
pub fn printed_is_file()
    ensures { (f : File) → AreRecords f → length (file_text f) ≤ most_bytes →
        IsFile (file_text f) f }
{}

/// A printed file of returns and changes is that file, if it is not too long.
pub fn returns_and_changes_are_read()
    ensures { (o : Outgoing) → print_fault o ≡ None → AreReturnsAndChanges o → IsReadAgain o }
{}

/// If printing has no fault, each row has a text, those of the controls too.
pub fn rows_have_texts()
    ensures { (o : Outgoing) → print_fault o ≡ None → AllFit (outgoing_rows o) }
{}

/// The key and what the items say are read again as they were given.
pub fn facts_are_read_again()
    ensures key { (o : Outgoing) → print_fault o ≡ None → KeepsKey o }
    ensures facts { (o : Outgoing) → print_fault o ≡ None → AreReturnsAndChanges o → KeepsFacts o }
{}

/// The fillers are the fewest that make the number of records a multiple of ten.
pub fn fillers_are_few()
    ensures whole { (n : ℕ) → (n + filler_count n) % 10 ≡ 0 }
    ensures few { (n : ℕ) → filler_count n < 10 }
{}

/// A fault that is found among the first bytes is the fault of every input that begins with them.
pub fn faults_stand()
    ensures { (s rest : List ℕ) (f : Fault) → early_fault s ≡ Some f → fault (s ++ rest) ≡ Some f }
{}

/// More than 4,194,304 bytes have a fault, whatever they are, in the first 4,194,305.
pub fn long_bytes_have_faults()
    ensures { (bytes : List ℕ) → most_bytes < length bytes → HasEarlyFault bytes }
{}

//! A cut keeps its files.
ghost use Rattle.sql_tables.specs.Layout.{desk_layout};
ghost use Rattle.sql_tables.specs.TableEdits.{put_file_edit};

use desk_book::FileRow;
use sql_statements::{RowBody, blob, execute};
use sql_tables::{characters, date};
use sqlite::{Alter, Error, Transaction};

/// `PutFiles` keeps each file of a list. It fails where the day of a file has one of its modifier
/// already.
#[derive(Clone, Copy)]
pub(crate) struct PutFiles;

impl RowBody for PutFiles {
    type Row = FileRow;

    ghost layout = { desk_layout };

    ghost edit = { λ _ _ f. put_file_edit f };

    fn run_row<S: Alter>(
        &self,
        tx: &mut Transaction<'_, S>,
        _number: u64,
        file: &FileRow,
    ) -> Result<(), Error> {
        let letter = [file.modifier];
        execute(
            tx,
            "INSERT INTO files VALUES (?1, ?2, ?3)",
            &[
                date(file.day),
                characters(&letter),
                blob(file.text.as_slice()),
            ],
        )?;
        Ok(())
    }
}

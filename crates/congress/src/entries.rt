// Entries bear transaction numbers.
ghost use Rattle.congress.specs.Entries.{entry_transaction};

use super::tables::Entry;
use records::Bears;

impl Bears for Entry {
    ghost number = { entry_transaction };

    fn transaction(&self) -> u32 {
        self.transaction
    }
}

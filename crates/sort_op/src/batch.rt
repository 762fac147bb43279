//! Many entries at once.
ghost use Rattle.std.specs.Prelude.{◌≡◌, ◌||◌, false, filter, not, IsPermutation, IsTrue, OnOk};
ghost use Rattle.std.specs.List.{AllByRecursion};
ghost use Rattle.sort_op.specs.declared.entry.Entry.{Entry};
ghost use Rattle.sort_op.specs.Entries.{AreDistinct, Falls, IsOrder, IsWhole, entries, is_in};

use crate::entry::Entry;
use crate::order::SortOrder;
use std::alloc::AllocError;
use tick_model::plan::SortBy;

impl SortOrder {
    /// Takes out those of the entries that are there. It takes no memory.
    pub fn remove_all(&mut self, leaving: &[Entry])
        requires { AllByRecursion (IsWhole self.old.by) leaving.now }
        ensures entries { entries self.new ≡ filter (λ entry. not (is_in entry leaving.now)) (entries self.old) }
        ensures by { self.new.by ≡ self.old.by }
        ensures order { IsOrder self.new }
    {
        let _count = self.len();
        for entry in leaving {
            let _ = self.remove(entry);
        }
    }

    /// Puts entries in that are not there, no two of which are the same. They come in the order in which they stand, so that
    /// many cost a sort, and then each is put in behind the one before it. After a refusal, which comes where memory runs
    /// out, all entries are there that were, and of those that come some may be.
    pub fn insert_all(&mut self, mut coming: Vec<Entry>) -> Result<(), AllocError>
        requires whole { AllByRecursion (IsWhole self.old.by) coming.items }
        requires absent { AllByRecursion (λ entry. is_in entry (entries self.old) ≡ false) coming.items }
        requires distinct { AreDistinct coming.items }
        ensures entries { OnOk result ((entry : Entry) → is_in entry (entries self.new) ≡ (is_in entry (entries self.old) || is_in entry coming.items)) }
        ensures stay { (entry : Entry) → IsTrue (is_in entry (entries self.old)) → IsTrue (is_in entry (entries self.new)) }
        ensures no_others { (entry : Entry) → IsTrue (is_in entry (entries self.new)) → IsTrue (is_in entry (entries self.old) || is_in entry coming.items) }
        ensures by { self.new.by ≡ self.old.by }
        ensures order { IsOrder self.new }
    {
        sort_backward(self.by(), &mut coming);
        while let Some(entry) = coming.pop() {
            self.insert(entry)?;
        }
        Ok(())
    }
}

/// Puts the first entry of an order last.
fn sort_backward(by: &[SortBy], entries: &mut Vec<Entry>)
    ensures permutation { IsPermutation entries.old.items entries.new.items }
    ensures backward { Falls by.now entries.new.items }
{
    entries.sort_unstable_by(|entry, other| other.compare(entry, by));
}

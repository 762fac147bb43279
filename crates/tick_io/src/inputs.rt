//! Files by name, as the engine loads them.
ghost use Rattle.std.specs.Prelude.{◌≡◌, ◌<◌, ◌≤◌, ◌∷◌, [], ℕ, Bool, List, Option, Some, IfOk, IsErrOf, IsSomeAnd, IsTrue, length, vec_len};
ghost use Rattle.tick_io.specs.Asked.{AsksFor};
ghost use Rattle.tick_io.specs.Counts.{Rose};
ghost use Rattle.tick_io.specs.Loads.{IfTooLong, UnlessFailed};
ghost use Rattle.tick_io.specs.declared.inputs.LoadFault.TheVariants.{Memory};

use std::alloc::{AllocError, AllocFailed, Global};

/// Why a load gave no bytes.
#[derive(Clone, Copy, Debug, PartialEq, Eq)]
pub enum LoadFault {
    /// Memory ran out.
    Memory,
    /// There are more bytes than were asked for at most. `seen` of them were seen.
    TooLong { seen: usize },
    /// There is no such file, or it could not be read.
    Failed,
}

impl From<AllocError> for LoadFault {
    ghost from_gives = { λ _ fault. fault ≡ Memory };

    fn from(_: AllocError) -> Self {
        LoadFault::Memory
    }
}

impl<T: Drop> From<AllocFailed<T>> for LoadFault {
    ghost from_gives = { λ _ fault. fault ≡ Memory };

    fn from(_: AllocFailed<T>) -> Self {
        LoadFault::Memory
    }
}

/// Files by name.
pub trait Inputs {
    /// Whether the contents are told.
    ghost told: { Bool };

    /// The bytes of the file of a name, which is given by its bytes. `None` where there is no such file.
    ghost content: { Self → List ℕ → Option (List ℕ) };

    /// How many loads of a name have failed. One counter may serve for all names.
    ghost failures: { Self → List ℕ → ℕ };

    /// The names that were asked for, one after the other, or `None` where they are not told, or no longer.
    ghost asked: { Self → Option (List (List ℕ)) };

    /// All the bytes of a file that has at most `most` of them.
    ///
    /// `TooLong` comes only where there are more, and `Failed` only where the count of this name rose in this call. With any other answer
    /// no count rises. Whatever it answers, this name was asked for, and no other. No load changes what any name has.
    fn load(&mut self, alloc: Global, name: &str, most: usize) -> Result<Vec<u8>, LoadFault>
        ensures within { IfOk result (λ loaded. vec_len loaded ≤ most) }
        ensures whole { IfOk result (λ loaded. IsTrue told → content self.old name.now ≡ Some loaded.items) }

        ensures seen { IfTooLong result (λ seen. most < seen) }
        ensures too_long { IfTooLong result (λ seen. IsTrue told → IsSomeAnd (content self.old name.now) (λ bytes. seen ≤ length bytes)) }
        ensures failed { IsErrOf result LoadFault.Failed → Rose (failures self.old name.now) (failures self.new name.now) }

        ensures never_falls { (other : List ℕ) → failures self.old other ≤ failures self.new other }
        ensures steady { UnlessFailed result ((other : List ℕ) → failures self.new other ≡ failures self.old other) }
        ensures asks { AsksFor (asked self.old) (asked self.new) (name.now ∷ []) }
        ensures kept { content self.new ≡ content self.old };
}

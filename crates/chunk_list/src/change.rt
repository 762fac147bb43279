//! What is done to each item of a list.
ghost use Rattle.std.specs.Prelude.{◌≡◌};

/// Changes an item in its place.
pub trait ItemChange<T> {
    /// What has to hold of an item.
    ghost ready: { Self → T → Type 0 };

    /// What an item becomes.
    ghost changed: { Self → T → T };

    /// Changes an item.
    fn change(&self, item: &mut T)
        requires { ready self.now item.old }
        ensures { item.new ≡ changed self.now item.old };
}

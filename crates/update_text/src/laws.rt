//! What the texts tell.
ghost use Rattle.update_text.specs.OneToOne.{UpdateTextIsOneToOne};

/// The text of a printable change that is not empty is that of no other change, step or name: for the same columns, whose names are
/// distinct, and the same texts, which are not empty and rise in the order of their bytes.
pub fn update_text_is_one_to_one()
    ensures { UpdateTextIsOneToOne }
{}

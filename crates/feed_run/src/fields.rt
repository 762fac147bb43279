//! The fields of a record, one after the other.

ghost use Rattle.std.specs.Prelude.{◌≡◌, ◌++◌, ◌∷◌, [], IfOk, codes, map, string_bytes};
ghost use Rattle.std.specs.Fmt.{decimal};

use std::alloc::{AllocError, Global};
use std::marker::Model;

/// The fields of a record, which contracts see as the list of their bytes.
#[derive(Drop)]
pub(crate) struct Fields {
    fields: Vec<String>,
    alloc: Global,
}

impl Model for Fields {
    ghost use Rattle.std.specs.Prelude.{List, ℕ, map, string_bytes};

    ghost Value = { List (List ℕ) };

    ghost view = { λ of. map string_bytes of.fields.items };
}

impl Fields {
    /// No fields.
    fn new(alloc: Global) -> Fields
        ensures { result ≡ [] }
    {
        Fields {
            fields: Vec::new(alloc),
            alloc,
        }
    }

    /// The fields with which the record of a fault begins: its status, and what has it.
    pub(crate) fn of_fault(alloc: Global, status: &str, what: &str) -> Result<Fields, AllocError>
        ensures { IfOk result (λ fields. fields ≡ codes "fault" ∷ status.now ∷ what.now ∷ []) }
    {
        Fields::new(alloc).text("fault")?.text(status)?.text(what)
    }

    /// The fields with which the last record begins.
    pub(crate) fn of_end(alloc: Global) -> Result<Fields, AllocError>
        ensures { IfOk result (λ fields. fields ≡ codes "done" ∷ []) }
    {
        Fields::new(alloc).text("done")
    }

    /// The fields with which the first record of a summary begins.
    pub(crate) fn of_demo(alloc: Global) -> Result<Fields, AllocError>
        ensures { IfOk result (λ fields. fields ≡ codes "demo" ∷ []) }
    {
        Fields::new(alloc).text("demo")
    }

    /// The fields with which the record of a node's size begins.
    pub(crate) fn of_size(alloc: Global) -> Result<Fields, AllocError>
        ensures { IfOk result (λ fields. fields ≡ codes "size" ∷ []) }
    {
        Fields::new(alloc).text("size")
    }

    /// One more field.
    pub(crate) fn text(self, text: &str) -> Result<Fields, AllocError>
        ensures { IfOk result (λ fields. fields ≡ self ++ text.now ∷ []) }
    {
        let Fields { mut fields, alloc } = self;
        fields.push(String::from_str(alloc, text)?)?;
        Ok(Fields { fields, alloc })
    }

    /// One more field, a number.
    pub(crate) fn number(self, number: u64) -> Result<Fields, AllocError>
        ensures { IfOk result (λ fields. fields ≡ self ++ decimal number ∷ []) }
    {
        let Fields { mut fields, alloc } = self;
        fields.push(format!(in alloc; "{number}")?)?;
        Ok(Fields { fields, alloc })
    }

    /// The fields as strings.
    pub(crate) fn as_slice(&self) -> &[String]
        ensures { map string_bytes result.now ≡ self.now }
    {
        self.fields.as_slice()
    }
}

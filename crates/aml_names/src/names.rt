//! Names as they are written.

ghost use Rattle.std.specs.Prelude.{◌≡◌, ◌∷◌, [], false};
ghost use Rattle.aml_names.specs.declared.names.NameForm.TheVariants.{One};
ghost use Rattle.aml_names.specs.NameReading.{has_segment as segmented};
ghost use Rattle.aml_names.specs.Searching.{is_single as single};

use crate::segments::{Seg, Segs};
use std::alloc::Global;

/// How the segments of a name are spelled (ACPI 6.5, 20.2.2).
#[derive(Clone, Copy)]
pub enum NameForm {
    /// No segment: the byte 00.
    Null,
    /// One segment, without a byte before it.
    One,
    /// Two segments after the byte 2E.
    Dual,
    /// 1 to 255 segments after the byte 2F and their number.
    Multi,
}

/// A NameString as it is written (ACPI 6.5, 20.2.2): a root prefix or parent prefixes, and segments in a form.
#[derive(Clone, Drop)]
pub struct Name {
    /// Whether the name begins with `\`, and so at the root.
    pub root: bool,
    // Here, beside the root flag, it makes a name 8 bytes shorter than behind the number.
    pub form: NameForm,
    /// How many prefixes `^` it has, each of which leads to the parent.
    pub ups: u32,
    pub segs: Segs,
}

impl Name {
    /// A segment without a prefix.
    pub fn plain(alloc: Global, seg: Seg) -> Name
        ensures { result ≡ record { root = false; ups = 0; form = One; segs = seg ∷ [] } }
    {
        Name {
            root: false,
            form: NameForm::One,
            ups: 0,
            segs: Segs::one(alloc, seg),
        }
    }

    /// Whether the name has at least one segment.
    pub fn has_segment(&self) -> bool
        ensures { result ≡ segmented self.now }
    {
        self.segs.len() > 0
    }

    /// Whether the name is one segment without a prefix, in any spelling. Such a name is searched upward from its
    /// scope (ACPI 6.5, 5.3); any other leads to one place.
    pub fn is_single(&self) -> bool
        ensures { result ≡ single self.now }
    {
        !self.root && self.ups == 0 && self.segs.len() == 1
    }
}

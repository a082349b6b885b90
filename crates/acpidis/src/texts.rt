//! The texts of bodies: a worker reads each body and prints it at its level at once, so that no terms are made of it, if
//! its text takes less memory than these.
ghost use Rattle.std.specs.Prelude.{◌≡◌, ◌⊎◌, Err, IfOk, get_or};
ghost use Rattle.aml_code.specs.Pieces.{line_pieces};
ghost use Rattle.aml_code.specs.Tree.{Trees};
ghost use Rattle.aml_names.specs.declared.faults.CodeFault.TheVariants.{NoMemory as want};
ghost use Rattle.aml_set.specs.Methods.{method_in};
ghost use Rattle.aml_load.specs.Views.{ReadsBy};
ghost use Rattle.asl_text.specs.Bodies.{IsText};
ghost use Rattle.acpidis.specs.Bodies.{IsItsBody, Reading, ReadsIn};
ghost use Rattle.acpidis.specs.Checks.{IsKept};

use crate::bodies::{Keep, Unread};
use aml_code::{CodeFault, Sink, Telling};
use aml_load::tell_span;
use aml_pool::NoMemory;
use asl_text::{Body, BodyText, told_text};
use std::alloc::Global;

/// Each body is kept as its text, at its level, or as its fault.
#[derive(Clone, Copy)]
pub(crate) struct Texts<'a> {
    pub(crate) alloc: Global,
    /// The level of each body.
    pub(crate) levels: &'a [u32],
}

/// The level of a body.
fn level_of(levels: &[u32], number: u32) -> u32
    ensures { result ≡ get_or levels.now number 0 }
{
    levels.get(number as usize).copied().unwrap_or(0)
}

/// How many bytes of text are kept of a body: more than 32 for each of its bytes would take as much memory as its
/// terms.
fn most_of(body: &[u8]) -> usize {
    body.len().saturating_mul(32)
}

/// A body that is read to be told in lines of a level.
#[derive(Clone, Copy)]
pub(crate) struct AtLevel<'u, 'a, 'b> {
    pub(crate) unread: &'u Unread<'a, 'b>,
    pub(crate) level: u32,
}

impl Telling for AtLevel<'_, '_, '_> {
    ghost can_tell = { λ t. IsItsBody t.unread.now };

    type Made = ();

    type Fault = CodeFault;

    ghost tells = { λ t made ps. let u = t.unread.now in let k = u.set.now.space in (ts : Trees) ×
        (ReadsBy u.unknown_zero k u.bytes.now (method_in k u.method.now) ts × (ps ≡ line_pieces t.level ts)) };

    ghost fails = { λ t fault. (fault ≡ want) ⊎
        ReadsIn t.unread.now.unknown_zero t.unread.now.set.now t.unread.now.method.now (Err fault) };

    fn tell_all<S: Sink>(self, sink: &mut S) -> Result<(), CodeFault> {
        tell_span(
            self.unread.alloc,
            self.unread.bytes,
            &self.unread.set.space,
            self.unread.method,
            self.unread.unknown_zero,
            self.level,
            sink,
        )
    }
}

/// What is kept of a body whose text isn't: its terms, or its fault.
#[cold]
#[inline(never)]
fn keep_terms(unread: &Unread<'_, '_>, level: u32) -> Result<Result<BodyText, CodeFault>, NoMemory>
    requires { IsItsBody unread.now }
    ensures { IfOk result (λ kept. (reading : Reading) ×
        (ReadsIn unread.now.unknown_zero unread.now.set.now unread.now.method.now reading ×
        IsKept (IsText level) reading kept)) }
{
    match unread.read()? {
        Body::Tree(nodes) => Ok(Ok(BodyText::Terms(nodes))),
        Body::Raw(fault) => Ok(Err(fault)),
    }
}

impl<'a> Keep for Texts<'a> {
    type Kept = Result<BodyText, CodeFault>;

    ghost keeps = { λ w n bytes reading kept. IsKept (IsText (get_or w.levels.now n 0)) reading kept };

    fn keep(&self, unread: &Unread<'_, '_>) -> Result<Self::Kept, NoMemory> {
        let level = level_of(self.levels, unread.number);
        let told = AtLevel { unread, level };
        match told_text(self.alloc, most_of(unread.bytes), told) {
            Ok(Some(text)) => Ok(Ok(BodyText::Lines(text))),
            Ok(None) => keep_terms(unread, level),
            Err(CodeFault::NoMemory) => keep_terms(unread, level),
            Err(fault) => Ok(Err(fault)),
        }
    }
}

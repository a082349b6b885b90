//! What all readers of terms take along.
ghost use Rattle.std.specs.Prelude.{◌≡◌, ◌∷◌, [], None, IfOk, OnOk, map, option_to_list, ok_or};
ghost use Rattle.aml_names.specs.NameReading.{Gives};
ghost use Rattle.aml_code.specs.Tree.{Parts as AnyParts, Tail as AnyTail};
ghost use Rattle.aml_code.specs.Lawful.{last_label, names_declared, with_declared, count_in, plain_name};
ghost use Rattle.aml_parse.specs.Kept.{with_each};
ghost use Rattle.aml_parse.specs.Telling.{AreUnits, label_at};

use aml_code::{CodeFault, Name, Names, NoMemory, Position, Role, Seg};
use aml_names::name_of;
use std::alloc::{AllocError, Global};

/// The most levels of terms inside each other.
pub const MOST_LEVELS: u16 = 512;

/// A reader of terms: it asks `names` how many arguments names take, which keep those that the terms declare.
#[derive(Drop)]
pub struct Parser<'a, N> {
    pub alloc: Global,
    pub names: &'a N,
}

impl<'a, N: Names> Parser<'a, N> {
    /// How many arguments a name takes in a position. `UnknownName` at the offset where nobody knows.
    pub fn count(
        &self,
        position: Position,
        at: u32,
        locals: &N::Locals,
        name: &Name,
    ) -> Result<u8, CodeFault>
        requires { N.fits self.now.names.now locals.now }
        ensures { Gives (λ n. n) result (ok_or (count_in (N.arity self.now.names.now) position
            (N.paths self.now.names.now locals.now) name.now) (CodeFault.UnknownName at)) }
    {
        match position {
            Position::Target | Position::Data => Ok(0),
            Position::ModuleTerm | Position::GuardTerm => Err(CodeFault::UnknownName { at }),
            Position::RunTerm
            | Position::RunAfterIf
            | Position::BodyTerm
            | Position::AfterIf
            | Position::Argument => match self.names.count(self.alloc, locals, name)? {
                None => Err(CodeFault::UnknownName { at }),
                Some(count) => Ok(count),
            },
        }
    }

    /// Keeps the names that a term declares itself, of whose parts the last name begins at `label`, in a span that ends
    /// at `end`, and of whose tail the named units have these segments.
    #[inline(always)]
    #[tactic(auto, using(crate::proofs::Kept::each_declared))]
    pub fn declare(
        &self,
        role: Role,
        end: u32,
        label: Option<&[u8]>,
        units: &[Seg],
        locals: &mut N::Locals,
    ) -> Result<(), NoMemory>
        requires { N.fits self.now.names.now locals.old }
        ensures declared { OnOk result ((ps : AnyParts) (t : AnyTail) → label_at end label.entry ≡ last_label None ps →
            AreUnits units.now t → N.paths self.now.names.now locals.new ≡ with_declared
            (N.scope self.now.names.now) (N.paths self.now.names.now locals.old) (names_declared role ps t)) }
        ensures fits { N.fits self.now.names.now locals.new }
    {
        match role {
            Role::Declares(_) | Role::Method | Role::Alias => self.declare_at(end, label, locals),
            Role::Fields => self.declare_segments(units, locals),
            Role::Other | Role::Guard | Role::External | Role::Scope => Ok(()),
        }
    }

    /// Keeps the name that begins there, in a span that ends at `end`, if one does. It stays out of the frame of the
    /// reader of terms, few of which declare.
    #[inline(never)]
    fn declare_at(
        &self,
        end: u32,
        label: Option<&[u8]>,
        locals: &mut N::Locals,
    ) -> Result<(), NoMemory>
        requires { N.fits self.now.names.now locals.old }
        ensures declared { OnOk result (N.paths self.now.names.now locals.new ≡ with_each
            (N.scope self.now.names.now) (N.paths self.now.names.now locals.old)
            (option_to_list (label_at end label.entry))) }
        ensures fits { N.fits self.now.names.now locals.new }
    {
        if !self.names.keeps() {
            return Ok(());
        }
        match label_of(self.alloc, end, label)? {
            None => Ok(()),
            Some(name) => self.names.declare(self.alloc, locals, &name),
        }
    }

    /// Keeps segments as names.
    fn declare_segments(&self, segs: &[Seg], locals: &mut N::Locals) -> Result<(), NoMemory>
        requires { N.fits self.now.names.now locals.old }
        ensures declared { OnOk result (N.paths self.now.names.now locals.new ≡ with_each
            (N.scope self.now.names.now) (N.paths self.now.names.now locals.old) (map plain_name segs.now)) }
        ensures fits { N.fits self.now.names.now locals.new }
    {
        for seg in segs {
            self.declare_segment(*seg, locals)?;
        }
        Ok(())
    }

    /// Keeps a segment as a name.
    fn declare_segment(&self, seg: Seg, locals: &mut N::Locals) -> Result<(), NoMemory>
        requires { N.fits self.now.names.now locals.old }
        ensures declared { OnOk result (N.paths self.now.names.now locals.new ≡ with_each
            (N.scope self.now.names.now) (N.paths self.now.names.now locals.old) (plain_name seg ∷ [])) }
        ensures fits { N.fits self.now.names.now locals.new }
    {
        let name = Name::plain(self.alloc, seg);
        self.names.declare(self.alloc, locals, &name)
    }
}

/// The name that begins there, in a span that ends at `end`, if one does.
fn label_of(alloc: Global, end: u32, label: Option<&[u8]>) -> Result<Option<Name>, NoMemory>
    ensures { IfOk result (λ name. name ≡ label_at end label.entry) }
{
    let Some(bytes) = label else {
        return Ok(None);
    };
    match name_of(alloc, end, bytes) {
        Ok((name, _)) => Ok(Some(name)),
        Err(CodeFault::NoMemory) => Err(AllocError),
        Err(_) => Ok(None),
    }
}

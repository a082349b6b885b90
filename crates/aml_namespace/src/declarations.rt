//! What the declarations of a path say.
ghost use Rattle.std.specs.Prelude.{◌≡◌, ◌∷◌, ◌++◌, [], ℕ, OnOk, OnErr, IfOk};
ghost use Rattle.aml_namespace.specs.declared.kinds.Kind.{Kind as KindOf};
ghost use Rattle.aml_namespace.specs.Known.{once, again};
ghost use Rattle.aml_namespace.specs.Tallies.{tally_of, IsAgain, IsUnchanged};

use crate::ids::PathId;
use crate::kinds::Kind;
use crate::tallies::Tally;
use std::alloc::{AllocError, Global};
use std::marker::Model;

/// What is kept of the declarations of a path. Their kinds tell targets of Aliases by number.
#[derive(Drop)]
pub struct Declarations {
    /// The kind of the first.
    kind: Kind<PathId>,
    /// Most paths are declared once, surely: nothing.
    again: Option<Box<Again>>,
}

/// What is known of a path beside its first kind, where it isn't declared just once and surely.
#[derive(Drop)]
struct Again {
    /// The kinds of the further declarations, up to and with the first sure one.
    others: Vec<Kind<PathId>>,
    /// Whether a declaration is sure.
    sure: bool,
    /// How many declarations there are.
    times: usize,
    /// That of all kinds.
    tally: Tally,
}

impl Model for Declarations {
    ghost use Rattle.std.specs.Prelude.{ℕ};
    ghost use Rattle.std.specs.Coded.{coded_ℕ};
    ghost use Rattle.aml_namespace.specs.declared.kinds.Kind.{Kind as KindOf};
    ghost use Rattle.aml_namespace.specs.Known.{Said, coded_kind, coded_said};
    ghost use Rattle.aml_namespace.specs.Tallies.{declared_with, IsTallied};

    ghost Value = { Said (KindOf ℕ) };

    ghost coded = { coded_said (coded_kind coded_ℕ) };

    ghost view = { λ s. declared_with s.kind s.again };

    ghost invariant = { λ s. IsTallied s.kind s.again };
}

impl Declarations {
    /// One declaration.
    pub fn new(alloc: Global, kind: Kind<PathId>, sure: bool) -> Result<Declarations, AllocError>
        ensures { IfOk result (λ said. said ≡ once kind sure) }
    {
        if sure {
            return Ok(Declarations { kind, again: None });
        }
        let again = Box::new(alloc, Again::first(alloc, &kind, false, 1))?;
        Ok(Declarations {
            kind,
            again: Some(again),
        })
    }

    /// One declaration more. A refused one changes nothing.
    pub fn declare(
        &mut self,
        alloc: Global,
        kind: Kind<PathId>,
        sure: bool,
    ) -> Result<(), AllocError>
        ensures ok { OnOk result (self.new ≡ again self.old kind sure) }
        ensures err { OnErr result (self.new ≡ self.old) }
    {
        match &mut self.again {
            Some(again) => again.declare(kind, sure),
            None => {
                let twice = Box::new(alloc, Again::first(alloc, &self.kind, true, 2))?;
                self.again = Some(twice);
                Ok(())
            }
        }
    }

    /// The kind with which the path is declared first.
    pub fn kind(&self) -> Kind<PathId>
        ensures { result ≡ self.now.kind }
    {
        self.kind
    }

    /// Whether a declaration is sure.
    pub fn is_sure(&self) -> bool
        ensures { result ≡ self.now.sure }
    {
        match &self.again {
            None => true,
            Some(again) => again.sure,
        }
    }

    /// How many declarations there are.
    pub fn times(&self) -> usize
        ensures { result ≡ self.now.times }
    {
        match &self.again {
            None => 1,
            Some(again) => again.times,
        }
    }

    /// The kinds of the further declarations, up to and with the first sure one.
    pub fn others(&self) -> &[Kind<PathId>]
        ensures { result.now ≡ self.now.others }
    {
        match &self.again {
            None => &[],
            Some(again) => again.others.as_slice(),
        }
    }

    /// What the kinds come to, without a look at each.
    pub fn tally(&self) -> Tally
        ensures { result ≡ tally_of (self.now.kind ∷ self.now.others) }
    {
        match &self.again {
            None => Tally::of(&self.kind),
            Some(again) => again.tally,
        }
    }
}

impl Again {
    /// No kind but the first.
    fn first(alloc: Global, kind: &Kind<PathId>, sure: bool, times: usize) -> Again
        ensures others { result.others.items ≡ [] }
        ensures sure { result.sure ≡ sure }
        ensures times { result.times ≡ times }
        ensures tally { result.tally ≡ tally_of (kind.now ∷ []) }
    {
        Again {
            others: Vec::new(alloc),
            sure,
            times,
            tally: Tally::of(kind),
        }
    }

    /// One declaration more, whose kind counts where none so far is sure. A refused one changes nothing.
    fn declare(&mut self, kind: Kind<PathId>, sure: bool) -> Result<(), AllocError>
        ensures ok { OnOk result (IsAgain self.old self.new kind sure) }
        ensures err { OnErr result (IsUnchanged self.old self.new) }
    {
        if self.times == usize::MAX {
            return Err(AllocError);
        }
        if !self.sure {
            self.declare_kind(kind, sure)?;
        }
        self.times += 1;
        Ok(())
    }

    /// One kind more.
    fn declare_kind(&mut self, kind: Kind<PathId>, sure: bool) -> Result<(), AllocError>
        ensures others { OnOk result (self.new.others.items ≡ self.old.others.items ++ kind ∷ []) }
        ensures sure { OnOk result (self.new.sure ≡ sure) }
        ensures tally { OnOk result ((first : KindOf ℕ) → self.old.tally ≡ tally_of (first ∷ self.old.others.items) →
            self.new.tally ≡ tally_of (first ∷ self.new.others.items)) }
        ensures times { self.new.times ≡ self.old.times }
        ensures err { OnErr result (IsUnchanged self.old self.new) }
    {
        let tally = self.tally.with(&kind);
        self.others.push(kind)?;
        self.tally = tally;
        self.sure = sure;
        Ok(())
    }
}

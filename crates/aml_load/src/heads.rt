//! The head of a term in memory, as its pieces tell it.
ghost use Rattle.std.specs.Prelude.{◌≡◌, OnOk, IfOk, IfSome, option_map};
ghost use Rattle.std.specs.Option.{unwrap_or};
ghost use Rattle.aml_code.specs.Opcodes.{row_of};
ghost use Rattle.aml_code.specs.View.{node_view, part_view, parts_view, tail_view, fields_view};
ghost use Rattle.aml_namespace.specs.Known.{Known};
ghost use Rattle.aml_load.specs.Hearing.{Head as Told, with_part, behind_head, with_units, with_tail, head_of, head_at};
ghost use Rattle.aml_load.specs.HearingViews.{head_view, noted_view};
ghost use Rattle.aml_load.specs.Opening.{tail_of};
ghost use Rattle.aml_load.specs.Walking.{at_site};

use crate::ears::{Head, Noted};
use crate::sites::Site;
use aml_code::{Field, NoMemory, Node, Part, Tail, listed_row};
use std::alloc::Global;

/// What is noted of a part.
fn noted(part: &Part) -> Noted<'_>
    ensures { (h : Told) → with_part (noted_view result) h ≡ with_part (part_view part.now) h }
{
    match part {
        Part::Label(name) => Noted::Label(name),
        Part::Byte(value) => Noted::Byte(*value),
        _ => Noted::Other,
    }
}

/// The span of a method's body; of another term an empty one.
pub fn span_of(term: &Node) -> (u32, u32)
    ensures { result ≡ unwrap_or (tail_of (node_view term.now)) (0, 0) }
{
    match term {
        Node::Op {
            tail: Tail::Body { start, len },
            ..
        } => (*start, *len),
        _ => (0, 0),
    }
}

impl Head {
    /// A term of this opcode at a site, of which nothing else was told.
    fn of_opcode(alloc: Global, site: &Site, opcode: u16) -> Head
        ensures head { (k : Known) → head_view k result ≡ head_of (at_site k site.now) (row_of opcode) }
        ensures site { result.site ≡ site.now }
    {
        match listed_row(opcode) {
            None => Head::unlisted(alloc, *site),
            Some(row) => Head::new(alloc, *site, row),
        }
    }

    /// Behind parts.
    fn note_parts(&mut self, parts: &[Part]) -> Result<(), NoMemory>
        ensures noted { (k : Known) → OnOk result
            (head_view k self.new ≡ behind_head (parts_view parts.now) (head_view k self.old)) }
        ensures site { OnOk result (self.new.site ≡ self.old.site) }
    {
        for part in parts {
            self.note(&noted(part))?;
        }
        Ok(())
    }

    /// Behind the elements of a field list.
    fn add_units(&mut self, fields: &[Field]) -> Result<(), NoMemory>
        ensures units { (k : Known) → OnOk result
            (head_view k self.new ≡ with_units (fields_view fields.now) (head_view k self.old)) }
        ensures site { OnOk result (self.new.site ≡ self.old.site) }
    {
        for field in fields {
            self.add_unit(field)?;
        }
        Ok(())
    }

    /// Behind what follows the parts.
    fn note_tail(&mut self, tail: &Tail) -> Result<(), NoMemory>
        ensures noted { (k : Known) → OnOk result
            (head_view k self.new ≡ with_tail (tail_view tail.now) (head_view k self.old)) }
        ensures site { OnOk result (self.new.site ≡ self.old.site) }
    {
        match tail {
            Tail::Fields(fields) => self.add_units(fields.as_slice()),
            _ => Ok(()),
        }
    }

    /// The head of a term at a site, if it has one.
    pub fn of_term(alloc: Global, site: &Site, term: &Node) -> Result<Option<Head>, NoMemory>
        ensures head { (k : Known) → IfOk result (λ head.
            option_map (head_view k) head ≡ head_at (at_site k site.now) (node_view term.now)) }
        ensures site { IfOk result (λ head. IfSome head (λ h. h.site ≡ site.now)) }
    {
        match term {
            Node::Nothing => Ok(None),
            Node::Named { .. } => Ok(Some(Head::call(alloc, *site))),
            Node::Op {
                opcode,
                parts,
                tail,
                ..
            } => {
                let mut head = Head::of_opcode(alloc, site, *opcode);
                head.note_parts(parts.as_slice())?;
                head.note_tail(tail)?;
                Ok(Some(head))
            }
        }
    }
}
